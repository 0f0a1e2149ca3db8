// Laid kinds: those that also tell where in its container a piece lies. Totes are none.
ghost use Rattle.std.specs.Prelude.{◌≡◌};
ghost use Rattle.kinds.specs.Kind.{told};
ghost use Rattle.kinds.specs.Bars.{bars};
ghost use Rattle.kinds.specs.Strips.{strips};
ghost use Rattle.kinds.specs.Laid.{Layout, LaidOut, side_by_side};
ghost use Rattle.kinds.specs.LaidLaws.{side_by_side_laid};

use crate::Kind;
use crate::bars::Bars;
use crate::piece::Piece;
use crate::strips::Strips;
use refusals::PieceRefusal;

pub trait Laid: Kind {
    // where pieces lie, as one value
    ghost layout: { Self → Layout };

    // Where the piece begins, from the left end, in a container that it finds at this level. A piece
    // that is not admitted has place 0: as in `Kind`, that is the answer.
    fn place(&self, level: u32, piece: &Piece) -> u32
        ensures { result ≡ layout self.now level piece.now };

    ghost laid: { (k : Self) → LaidOut (Self.meaning k) (layout k) };
}

// Side by side, an admitted piece begins at the level.
fn begins(refusal: Option<PieceRefusal>, level: u32) -> u32
    ensures { result ≡ told refusal level 0 }
{
    refusal.map_or(level, |_| 0)
}

// The answer of strips reads as that of bars: a default in the trait would be no plainer, since it would
// answer for kinds and layers that lay their pieces otherwise.
impl Laid for Bars {
    ghost layout = { λ b. side_by_side (bars b.capacity.value b.k.value) };

    ghost laid = { λ b. side_by_side_laid (bars b.capacity.value b.k.value) };

    fn place(&self, level: u32, rail: &Piece) -> u32 {
        begins(self.refusal(rail), level)
    }
}

impl Laid for Strips {
    ghost layout = { λ s. side_by_side (strips s.width.value) };

    ghost laid = { λ s. side_by_side_laid (strips s.width.value) };

    fn place(&self, level: u32, cloth: &Piece) -> u32 {
        begins(self.refusal(cloth), level)
    }
}
