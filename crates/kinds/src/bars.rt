// Bars of one capacity, in harmonic classes: class j holds j pieces, the last class what fits.
ghost use Rattle.std.specs.Prelude.{◌≡◌, Some, None, MatchResult, refl};
ghost use Rattle.kinds.specs.Bars.{bars, bars_refusal};
ghost use Rattle.kinds.specs.BarLaws.{bars_lawful};

use crate::Kind;
use crate::capacity::Capacity;
use crate::figures::ClassNumber;
use crate::piece::Piece;
use refusals::{MakeRefusal, PieceRefusal};

#[derive(Clone, Copy, PartialEq, Eq, Debug)]
pub struct Bars {
    pub capacity: Capacity,
    // the class number
    pub k: ClassNumber,
}

impl Bars {
    pub fn new(capacity: u32, k: u32) -> Result<Bars, MakeRefusal>
        ensures { MatchResult result (λ b. (bars_refusal capacity k ≡ None) × (b.capacity.value ≡ capacity) × (b.k.value ≡ k)) (λ e. bars_refusal capacity k ≡ Some e) }
    {
        let capacity = Capacity::try_from(capacity)?;
        let k = ClassNumber::try_from(k)?;
        Ok(Bars { capacity, k })
    }
}

// The trait asks for each question by itself. Where two answers read alike, a function of what differs
// would be no plainer than the line it saves.
impl Kind for Bars {
    const CODE: u8 = 1;

    ghost CODE = { 1 };

    ghost meaning = { λ b. bars b.capacity.value b.k.value };

    ghost coded = { λ b. refl };

    ghost lawful = { λ b. bars_lawful b.capacity.value b.k.value b.capacity.some b.capacity.most b.k.many b.k.few };

    fn refusal(&self, piece: &Piece) -> Option<PieceRefusal> {
        if piece.finish != 0 {
            Some(PieceRefusal::Finish)
        } else if !(1..=self.capacity.value).contains(&piece.first) {
            Some(PieceRefusal::First)
        } else if piece.second != 0 {
            Some(PieceRefusal::Second)
        } else {
            None
        }
    }

    fn classes(&self) -> u8 {
        self.k.value
    }

    fn class(&self, piece: &Piece) -> u8 {
        match self.refusal(piece) {
            None => (self.capacity.value / piece.first).min(self.k.value as u32) as u8,
            Some(_) => 0,
        }
    }

    fn cost(&self, class: u8) -> u64 {
        // two comparisons here and in `full`: with ranges a put over bars takes 112 instructions in place
        // of 104, which misses the 106.8 of the old form
        u64::from(1 <= class && class <= self.k.value)
    }

    fn standing(&self, class: u8) -> u64 {
        u64::from((2..=self.k.value).contains(&class))
    }

    fn unit(&self) -> u64 {
        self.k.unit_factor() * self.capacity.value as u64
    }

    fn ceiling(&self) -> u64 {
        self.k.ceiling_factor() * self.capacity.value as u64
    }

    fn weight(&self, piece: &Piece) -> u64 {
        match self.refusal(piece) {
            None => {
                let class = self.class(piece);
                if class < self.k.value {
                    self.unit() / class as u64
                } else {
                    self.k.last_factor() * piece.first as u64
                }
            }
            Some(_) => 0,
        }
    }

    fn load(&self, piece: &Piece) -> u32 {
        match self.refusal(piece) {
            None => piece.first,
            Some(_) => 0,
        }
    }

    fn fits(&self, class: u8, count: u32, level: u32, piece: &Piece) -> bool {
        match self.refusal(piece) {
            None => {
                if class < self.k.value {
                    count < class as u32
                } else {
                    class == self.k.value
                        && level as u64 + piece.first as u64 <= self.capacity.value as u64
                }
            }
            Some(_) => false,
        }
    }

    fn full(&self, class: u8, count: u32, _level: u32) -> bool {
        1 <= class && class < self.k.value && class as u32 <= count
    }
}
