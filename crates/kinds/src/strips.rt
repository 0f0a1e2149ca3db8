// Strips of one width, cut into rows: a row's height is the least power of two that its pieces
// need, narrow pieces lie side by side in one and a wide piece has one to itself.
ghost use Rattle.std.specs.Prelude.{◌≡◌, ℕ, ◌^◌, ◌≤◌, Some, None, MatchResult, refl};
ghost use Rattle.kinds.specs.Strips.{strips, strips_refusal, rank, row_height};
ghost use Rattle.kinds.specs.StripLaws.{strips_lawful};

use crate::Kind;
use crate::capacity::Capacity;
use crate::piece::Piece;
use refusals::{MakeRefusal, PieceRefusal};

#[derive(Clone, Copy, PartialEq, Eq, Debug)]
pub struct Strips {
    pub width: Capacity,
}

impl Strips {
    pub fn new(width: u32) -> Result<Strips, MakeRefusal>
        ensures { MatchResult result (λ s. (strips_refusal width ≡ None) × (s.width.value ≡ width)) (λ e. strips_refusal width ≡ Some e) }
    {
        let width = Capacity::try_from(width)?;
        Ok(Strips { width })
    }
}

// The least number whose power of two is at least the height.
#[tactic(auto, using(crate::specs::Ranks::rank_digits, crate::specs::Ranks::rank_enough, crate::specs::Ranks::rank_least, crate::specs::Ranks::rank_most))]
fn rank_of(height: u32) -> u8
    requires some { 1 ≤ height }
    requires most { height ≤ 4096 }
    ensures value { result ≡ rank height }
    ensures enough { height ≤ 2 ^ result }
    ensures least { (g : ℕ) → height ≤ 2 ^ g → result ≤ g }
    ensures few { result ≤ 12 }
{
    (32 - (height - 1).leading_zeros()) as u8
}

// The height of a row of the class.
fn row_height_of(class: u8) -> u64
    ensures { result ≡ row_height class }
{
    match class {
        1..=13 => 1 << (class - 1),
        14..=26 => 1 << (class - 14),
        _ => 0,
    }
}

// As in bars, answers that read alike stay apart, those of bars and strips too.
impl Kind for Strips {
    const CODE: u8 = 3;

    ghost CODE = { 3 };

    ghost meaning = { λ s. strips s.width.value };

    ghost coded = { λ s. refl };

    ghost lawful = { λ s. strips_lawful s.width.value s.width.some s.width.most };

    fn refusal(&self, piece: &Piece) -> Option<PieceRefusal> {
        if piece.finish != 0 {
            Some(PieceRefusal::Finish)
        } else if !(1..=self.width.value).contains(&piece.first) {
            Some(PieceRefusal::First)
        } else if !(1..=4096).contains(&piece.second) {
            Some(PieceRefusal::Second)
        } else {
            None
        }
    }

    fn classes(&self) -> u8 {
        26
    }

    fn class(&self, piece: &Piece) -> u8 {
        match self.refusal(piece) {
            None => {
                let rank = rank_of(piece.second);
                if 2 * piece.first <= self.width.value {
                    rank + 1
                } else {
                    rank + 14
                }
            }
            Some(_) => 0,
        }
    }

    fn cost(&self, class: u8) -> u64 {
        row_height_of(class)
    }

    fn standing(&self, class: u8) -> u64 {
        if class <= 13 { row_height_of(class) } else { 0 }
    }

    fn unit(&self) -> u64 {
        self.width.value as u64
    }

    fn ceiling(&self) -> u64 {
        4 * self.width.value as u64
    }

    fn weight(&self, piece: &Piece) -> u64 {
        match self.refusal(piece) {
            None => 4 * (piece.first as u64 * piece.second as u64),
            Some(_) => 0,
        }
    }

    fn load(&self, piece: &Piece) -> u32 {
        match self.refusal(piece) {
            None => piece.first,
            Some(_) => 0,
        }
    }

    fn fits(&self, class: u8, count: u32, level: u32, piece: &Piece) -> bool {
        match self.refusal(piece) {
            None => {
                if (1..=13).contains(&class) {
                    level as u64 + piece.first as u64 <= self.width.value as u64
                } else {
                    (14..=26).contains(&class) && count == 0
                }
            }
            Some(_) => false,
        }
    }

    fn full(&self, class: u8, count: u32, _level: u32) -> bool {
        (14..=26).contains(&class) && 1 <= count
    }
}
