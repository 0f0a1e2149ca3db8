// Finishes: a kind's classes once for each finish, so that no container mixes two.
ghost use Rattle.std.specs.Prelude.{◌≡◌, ◌*◌, ◌≤◌, true, Some, None, MatchResult, nat_le};
ghost use Rattle.layers.specs.Finishes.{reckoned, bare_piece, class_below, finishes, finishes_refusal};
ghost use Rattle.layers.specs.FinishLaws.{finishes_lawful};

use kinds::Kind;
use kinds::piece::Piece;
use refusals::{MakeRefusal, PieceRefusal};

#[derive(Drop)]
pub struct Finishes<K> {
    pub count: u8,
    pub below: K,
    ghost some: { 1 ≤ count },
    ghost few: { count ≤ 4 },
}

impl<K: Kind + Drop> Finishes<K> {
    pub fn new(count: u32, below: K) -> Result<Finishes<K>, MakeRefusal>
        ensures { MatchResult result (λ l. (finishes_refusal count (K.meaning below) ≡ None) × (l.count ≡ count) × (l.below ≡ below) × (reckoned count (K.meaning below) ≡ count)) (λ e. finishes_refusal count (K.meaning below) ≡ Some e) }
    {
        if !(1..=4).contains(&count) || !have_room(count, &below) {
            return Err(MakeRefusal::Finishes);
        }
        Ok(Finishes {
            count: count as u8,
            below,
        })
    }
}

// Whether so many finishes have room in 104 classes, and so are all reckoned with.
fn have_room<K: Kind>(count: u32, below: &K) -> bool
    requires { count ≤ 4 }
    ensures value { result ≡ nat_le (count * (K.meaning below.now).classes) 104 }
    ensures all { result ≡ true → reckoned count (K.meaning below.now) ≡ count }
{
    count * below.classes() as u32 <= 104
}

impl<K: Kind> Finishes<K> {
    // How many finishes are reckoned with: those that have room in 104 classes.
    fn known(&self) -> u8
        ensures value { result ≡ reckoned self.now.count (K.meaning self.now.below) }
        ensures room { result * (K.meaning self.now.below).classes ≤ 104 }
    {
        self.count.min(104 / self.below.classes())
    }

    // The piece that is passed down, where its finish is reckoned with.
    pub(crate) fn bare(&self, piece: &Piece) -> Option<Piece>
        ensures { result ≡ bare_piece self.now.count (K.meaning self.now.below) piece.now }
    {
        let known = piece.finish < self.known();
        known.then_some(Piece {
            finish: 0,
            ..*piece
        })
    }

    // The class below of a class that there is.
    fn class_below(&self, class: u8) -> Option<u8>
        ensures { result ≡ class_below self.now.count (K.meaning self.now.below) class }
    {
        (1..=self.classes())
            .contains(&class)
            .then(|| (class - 1) % self.below.classes() + 1)
    }
}

// As in an allowance, questions whose answers read alike stay apart.
impl<K: Kind> Kind for Finishes<K> {
    const CODE: u8 = K::CODE;

    ghost CODE = { K.CODE };

    ghost meaning = { λ l. finishes l.count (K.meaning l.below) };

    ghost coded = { λ l. K.coded l.below };

    ghost lawful = { λ l. finishes_lawful l.count _ (K.lawful l.below) l.some };

    fn refusal(&self, piece: &Piece) -> Option<PieceRefusal> {
        match self.bare(piece) {
            Some(bare) => self.below.refusal(&bare),
            None => Some(PieceRefusal::Finish),
        }
    }

    fn classes(&self) -> u8 {
        self.known() * self.below.classes()
    }

    fn class(&self, piece: &Piece) -> u8 {
        match self.bare(piece) {
            None => 0,
            Some(bare) => match self.below.class(&bare) {
                0 => 0,
                class => piece.finish * self.below.classes() + class,
            },
        }
    }

    fn cost(&self, class: u8) -> u64 {
        self.class_below(class)
            .map_or(0, |below| self.below.cost(below))
    }

    fn standing(&self, class: u8) -> u64 {
        self.class_below(class)
            .map_or(0, |below| self.below.standing(below))
    }

    fn unit(&self) -> u64 {
        self.below.unit()
    }

    fn ceiling(&self) -> u64 {
        self.below.ceiling()
    }

    fn weight(&self, piece: &Piece) -> u64 {
        self.bare(piece).map_or(0, |bare| self.below.weight(&bare))
    }

    fn load(&self, piece: &Piece) -> u32 {
        self.bare(piece).map_or(0, |bare| self.below.load(&bare))
    }

    fn fits(&self, class: u8, count: u32, level: u32, piece: &Piece) -> bool {
        match (self.class_below(class), self.bare(piece)) {
            (Some(below), Some(bare)) => self.below.fits(below, count, level, &bare),
            _ => false,
        }
    }

    fn full(&self, class: u8, count: u32, level: u32) -> bool {
        self.class_below(class)
            .is_some_and(|below| self.below.full(below, count, level))
    }
}
