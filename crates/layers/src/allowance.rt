// An allowance for the saw cut, the wrapping or the hem: what is added to each first measure.
ghost use Rattle.std.specs.Prelude.{◌≡◌, ◌≤◌, Some, None, MatchResult};
ghost use Rattle.layers.specs.Allowance.{widened, allowance, allowance_refusal};
ghost use Rattle.layers.specs.AllowanceLaws.{allowance_lawful};

use kinds::Kind;
use kinds::piece::Piece;
use refusals::{MakeRefusal, PieceRefusal};

#[derive(Drop)]
pub struct Allowance<K> {
    pub amount: u32,
    pub below: K,
    ghost few: { amount ≤ 1000 },
}

impl<K: Drop> Allowance<K> {
    pub fn new(amount: u32, below: K) -> Result<Allowance<K>, MakeRefusal>
        ensures { MatchResult result (λ a. (allowance_refusal amount ≡ None) × (a.amount ≡ amount) × (a.below ≡ below)) (λ e. allowance_refusal amount ≡ Some e) }
    {
        if amount > 1000 {
            return Err(MakeRefusal::Allowance);
        }
        Ok(Allowance { amount, below })
    }
}

impl<K> Allowance<K> {
    // The piece that is passed down. The sum is made only of a measure in range, so it fits; another
    // becomes 0, which every kind refuses: an Option would be no plainer, as each question would have to
    // make up that refusal.
    pub(crate) fn widen(&self, piece: &Piece) -> Piece
        ensures { result ≡ widened self.now.amount piece.now }
    {
        let first = if (1..=1_000_000).contains(&piece.first) {
            piece.first + self.amount
        } else {
            0
        };
        Piece { first, ..*piece }
    }
}

// All is asked below, of the piece passed down. The trait asks for each question by itself: a function of
// the question, as `self.ask(piece, |k, p| k.class(p))`, would be no plainer than the line it saves.
impl<K: Kind> Kind for Allowance<K> {
    const CODE: u8 = K::CODE;

    ghost CODE = { K.CODE };

    ghost meaning = { λ a. allowance a.amount (K.meaning a.below) };

    ghost coded = { λ a. K.coded a.below };

    ghost lawful = { λ a. allowance_lawful a.amount _ (K.lawful a.below) };

    fn refusal(&self, piece: &Piece) -> Option<PieceRefusal> {
        self.below.refusal(&self.widen(piece))
    }

    fn classes(&self) -> u8 {
        self.below.classes()
    }

    fn class(&self, piece: &Piece) -> u8 {
        self.below.class(&self.widen(piece))
    }

    fn cost(&self, class: u8) -> u64 {
        self.below.cost(class)
    }

    fn standing(&self, class: u8) -> u64 {
        self.below.standing(class)
    }

    fn unit(&self) -> u64 {
        self.below.unit()
    }

    fn ceiling(&self) -> u64 {
        self.below.ceiling()
    }

    fn weight(&self, piece: &Piece) -> u64 {
        self.below.weight(&self.widen(piece))
    }

    fn load(&self, piece: &Piece) -> u32 {
        self.below.load(&self.widen(piece))
    }

    fn fits(&self, class: u8, count: u32, level: u32, piece: &Piece) -> bool {
        self.below.fits(class, count, level, &self.widen(piece))
    }

    fn full(&self, class: u8, count: u32, level: u32) -> bool {
        self.below.full(class, count, level)
    }
}
