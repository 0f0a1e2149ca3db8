// A layer over a laid kind is laid: it asks below where the piece lies that it passes down. As in `Kind`,
// 0 is the answer for a piece that is refused.
ghost use Rattle.layers.specs.Laid.{allowance_layout, finishes_layout};
ghost use Rattle.layers.specs.LaidLaws.{allowance_laid, finishes_laid};

use crate::allowance::Allowance;
use crate::finishes::Finishes;
use kinds::Kind;
use kinds::laid::Laid;
use kinds::piece::Piece;

impl<L: Laid> Laid for Allowance<L> {
    ghost layout = { λ a. allowance_layout a.amount (L.layout a.below) };

    ghost laid = { λ a. allowance_laid a.amount (L.laid a.below) };

    fn place(&self, level: u32, piece: &Piece) -> u32 {
        self.below.place(level, &self.widen(piece))
    }
}

impl<L: Laid> Laid for Finishes<L> {
    ghost layout = { λ l. finishes_layout l.count (L.meaning l.below) (L.layout l.below) };

    ghost laid = { λ l. finishes_laid l.count (L.laid l.below) };

    fn place(&self, level: u32, piece: &Piece) -> u32 {
        self.bare(piece)
            .map_or(0, |bare| self.below.place(level, &bare))
    }
}
