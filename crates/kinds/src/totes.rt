// Totes: a mass as a bar has a length, and at most so many pieces.
ghost use Rattle.std.specs.Prelude.{◌≡◌, ◌*◌, ◌^◌, ◌<◌, ◌≤◌, Some, None, MatchResult, refl};
ghost use Rattle.kinds.specs.Totes.{totes, totes_refusal};
ghost use Rattle.kinds.specs.ToteLaws.{totes_lawful};

use crate::Kind;
use crate::bars::Bars;
use crate::piece::Piece;
use refusals::{MakeRefusal, PieceRefusal};

#[derive(Clone, Copy, PartialEq, Eq, Debug)]
pub struct Totes {
    // what a tote is but for its limit
    pub bars: Bars,
    // how many pieces a tote takes at most
    pub limit: u8,
    ghost many: { bars.k.value ≤ limit },
    ghost few: { limit ≤ 50 },
}

impl Totes {
    pub fn new(capacity: u32, k: u32, limit: u32) -> Result<Totes, MakeRefusal>
        ensures { MatchResult result (λ t. (totes_refusal capacity k limit ≡ None) × (t.bars.capacity.value ≡ capacity) × (t.bars.k.value ≡ k) × (t.limit ≡ limit)) (λ e. totes_refusal capacity k limit ≡ Some e) }
    {
        let bars = Bars::new(capacity, k)?;
        if !(k..=50).contains(&limit) {
            return Err(MakeRefusal::PieceLimit);
        }
        Ok(Totes {
            bars,
            limit: limit as u8,
        })
    }

    // A figure of the class number by a measure by the piece limit.
    fn scaled(&self, factor: u64, measure: u32) -> u64
        requires { factor ≤ 821040 }
        ensures value { result ≡ factor * measure * self.now.limit }
        ensures most { result < 2 ^ 60 }
    {
        factor * measure as u64 * self.limit as u64
    }
}

impl Kind for Totes {
    const CODE: u8 = 2;

    ghost CODE = { 2 };

    ghost meaning = { λ t. totes t.bars.capacity.value t.bars.k.value t.limit };

    ghost coded = { λ t. refl };

    ghost lawful = { λ t. totes_lawful t.bars.capacity.value t.bars.k.value t.limit t.bars.capacity.some t.bars.capacity.most t.bars.k.many t.bars.k.few t.many t.few };

    fn refusal(&self, piece: &Piece) -> Option<PieceRefusal> {
        self.bars.refusal(piece)
    }

    fn classes(&self) -> u8 {
        self.bars.classes()
    }

    fn class(&self, piece: &Piece) -> u8 {
        self.bars.class(piece)
    }

    fn cost(&self, class: u8) -> u64 {
        self.bars.cost(class)
    }

    fn standing(&self, class: u8) -> u64 {
        self.bars.standing(class)
    }

    fn unit(&self) -> u64 {
        self.scaled(self.bars.k.unit_factor(), self.bars.capacity.value)
    }

    fn ceiling(&self) -> u64 {
        self.scaled(
            self.bars.k.ceiling_factor() + self.bars.k.unit_factor(),
            self.bars.capacity.value,
        )
    }

    fn weight(&self, piece: &Piece) -> u64 {
        match self.refusal(piece) {
            None => {
                let class = self.class(piece);
                if class < self.bars.k.value {
                    self.unit() / class as u64
                } else {
                    self.scaled(self.bars.k.last_factor(), piece.first) + self.bars.unit()
                }
            }
            Some(_) => 0,
        }
    }

    fn load(&self, piece: &Piece) -> u32 {
        self.bars.load(piece)
    }

    fn fits(&self, class: u8, count: u32, level: u32, piece: &Piece) -> bool {
        self.bars.fits(class, count, level, piece)
            && (class < self.bars.k.value || count < self.limit as u32)
    }

    fn full(&self, class: u8, count: u32, level: u32) -> bool {
        self.bars.full(class, count, level)
            || (class == self.bars.k.value && self.limit as u32 <= count)
    }
}
