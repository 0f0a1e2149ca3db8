// A kind from outside: containers of two halves, in which a piece is one half or a whole. It shows how
// a kind is added, and that layers and packer take kinds that they know nothing of.
#![tactic(auto)]

ghost use Rattle.std.specs.Prelude.{◌≡◌, [], ◌∷◌, refl};
ghost use Rattle.ledger.specs.Rules.{a_put};
ghost use Rattle.ledger.specs.Season.{Season};
ghost use Rattle.halves.specs.Halving.{sized, halves};
ghost use Rattle.halves.specs.HalfLaws.{halves_lawful};

use archive::line::{ClosingLine, PlaceLine};
use kinds::Kind;
use kinds::piece::Piece;
use ledger::{Placing, Report};
use packer::Packer;
use packer::lines::Lines;
use refusals::{PieceRefusal, PutRefusal};

#[derive(Clone, Copy, PartialEq, Eq, Debug)]
pub struct Halves;

fn is_sized(piece: &Piece) -> bool
    ensures { result ≡ sized piece.now }
{
    (1..=2).contains(&piece.first)
}

// As in bars, two questions whose answers read alike stay apart.
impl Kind for Halves {
    const CODE: u8 = 9;

    ghost CODE = { 9 };

    ghost meaning = { λ _. halves };

    ghost coded = { λ _. refl };

    ghost lawful = { λ k. halves_lawful };

    fn refusal(&self, piece: &Piece) -> Option<PieceRefusal> {
        if is_sized(piece) {
            None
        } else {
            Some(PieceRefusal::First)
        }
    }

    fn classes(&self) -> u8 {
        1
    }

    fn class(&self, piece: &Piece) -> u8 {
        u8::from(is_sized(piece))
    }

    fn cost(&self, class: u8) -> u64 {
        u64::from(class == 1)
    }

    fn standing(&self, class: u8) -> u64 {
        u64::from(class == 1)
    }

    fn unit(&self) -> u64 {
        1
    }

    fn ceiling(&self) -> u64 {
        2
    }

    fn weight(&self, piece: &Piece) -> u64 {
        self.load(piece) as u64
    }

    fn load(&self, piece: &Piece) -> u32 {
        if is_sized(piece) { piece.first } else { 0 }
    }

    fn fits(&self, class: u8, _count: u32, level: u32, piece: &Piece) -> bool {
        class == 1 && is_sized(piece) && level as u64 + piece.first as u64 <= 2
    }

    fn full(&self, class: u8, _count: u32, level: u32) -> bool {
        class == 1 && 2 <= level
    }
}

// A season of two puts: how a caller comes by the promise, here for this crate's own kind.
pub fn two_puts(
    p: Piece,
    q: Piece,
) -> (
    Result<Placing, PutRefusal>,
    Result<Placing, PutRefusal>,
    Report,
)
    ensures { Season halves (a_put p result.0 ∷ a_put q result.1 ∷ []) result.2 }
{
    let mut place_memory = [PlaceLine::default(); 2];
    let mut closing_memory = [ClosingLine::default(); 4];
    let mut places = Lines::new(&mut place_memory);
    let mut closings = Lines::new(&mut closing_memory);
    let mut packer = Packer::new(Halves);
    let x = packer.put(p, &mut places, &mut closings);
    let y = packer.put(q, &mut places, &mut closings);
    let r = packer.report();
    (x, y, r)
}

#[cfg(test)]
mod tests {
    use super::*;
    use kinds::bars::Bars;
    use kinds::strips::Strips;
    use layers::allowance::Allowance;
    use layers::finishes::Finishes;
    use refusals::Refusal;
    use std::test::Fail;

    fn piece(first: u32, second: u32, finish: u8) -> Piece {
        Piece {
            number: 1,
            first,
            second,
            finish,
        }
    }

    // Both layers over the kind of this crate.
    #[test]
    fn over_halves(rt: HostRuntime) -> Result<(), Fail> {
        let pile = Finishes::new(3, Allowance::new(1, Allowance::new(0, Halves)?)?)?;
        assert_eq!(rt; pile.classes(), 3);
        assert_eq!(rt; pile.class(&piece(1, 0, 2)), 3);
        assert_eq!(rt; pile.weight(&piece(1, 0, 2)), 2);
        assert_eq!(rt; pile.refusal(&piece(1, 0, 3)), Some(PieceRefusal::Finish));
        assert_eq!(rt; pile.refusal(&piece(2, 0, 0)), Some(PieceRefusal::First));
        Ok(())
    }

    // Every way out of the range of a first measure, at the ends of the allowance's.
    #[test]
    fn first_measures(rt: HostRuntime) -> Result<(), Fail> {
        for amount in [0, 1, 1000] {
            let layer = Allowance::new(amount, Strips::new(1_000_000)?)?;
            for first in [0, 1_000_001, u32::MAX] {
                assert_eq!(rt;
                    layer.refusal(&piece(first, 1, 0)),
                    Some(PieceRefusal::First)
                );
                assert_eq!(rt; layer.weight(&piece(first, 1, 0)), 0);
            }
            assert_eq!(rt; layer.load(&piece(1_000_000 - amount, 1, 0)), 1_000_000);
            assert_eq!(rt;
                layer.load(&piece(1_000_000, 1, 0)),
                if amount == 0 { 1_000_000 } else { 0 }
            );
        }
        assert_eq!(rt; Allowance::new(1001, Halves).is_ok(), false);
        Ok(())
    }

    // Three finishes over two over bars of three classes: 18 classes.
    #[test]
    fn over_bars(rt: HostRuntime) -> Result<(), Fail> {
        let pile = Finishes::new(3, Finishes::new(2, Allowance::new(1, Bars::new(12, 3)?)?)?)?;
        assert_eq!(rt; pile.classes(), 18);
        assert_eq!(rt; pile.class(&piece(5, 0, 2)), 14);
        assert_eq!(rt; pile.refusal(&piece(12, 0, 0)), Some(PieceRefusal::First));
        assert_eq!(rt; pile.refusal(&piece(5, 0, 255)), Some(PieceRefusal::Finish));
        for (class, cost, standing) in [
            (0, 0, 0),
            (1, 1, 0),
            (4, 1, 0),
            (17, 1, 1),
            (18, 1, 1),
            (19, 0, 0),
            (255, 0, 0),
        ] {
            assert_eq!(rt; pile.cost(class), cost);
            assert_eq!(rt; pile.standing(class), standing);
        }
        assert_eq!(rt; Finishes::new(5, pile).is_ok(), false);
        Ok(())
    }

    // Two allowances under finishes over strips: 104 classes, and no room for more.
    #[test]
    fn over_strips(rt: HostRuntime) -> Result<(), Fail> {
        let pile = Finishes::new(4, Allowance::new(2, Allowance::new(1, Strips::new(10)?)?)?)?;
        assert_eq!(rt; pile.classes(), 104);
        assert_eq!(rt; pile.class(&piece(2, 3, 3)), 81);
        assert_eq!(rt; pile.load(&piece(2, 3, 3)), 5);
        assert_eq!(rt; pile.weight(&piece(2, 3, 3)), 60);
        assert_eq!(rt; pile.fits(81, 1, 5, &piece(2, 3, 3)), true);
        assert_eq!(rt; pile.fits(81, 2, 6, &piece(2, 3, 3)), false);
        assert_eq!(rt; Finishes::new(2, pile).is_ok(), false);
        Ok(())
    }

    // A layer's constant is that of the kind below.
    #[test]
    fn codes(rt: HostRuntime) {
        assert_eq!(rt; <Finishes<Allowance<Halves>> as Kind>::CODE, 9);
        assert_eq!(rt; <Allowance<Finishes<Bars>> as Kind>::CODE, 1);
        assert_eq!(rt; <Finishes<Finishes<Strips>> as Kind>::CODE, 3);
        assert_eq!(rt; <Finishes<Allowance<Halves>> as Kind>::kind_code(), 9);
    }

    // One half, then a whole: it does not fit, and fills its own container, so two close at once.
    #[test]
    fn two_closings(rt: HostRuntime) -> Result<(), Fail> {
        let mut place_memory = [PlaceLine::default(); 3];
        let mut closing_memory = [ClosingLine::default(); 3];
        let mut places = Lines::new(&mut place_memory);
        let mut closings = Lines::new(&mut closing_memory);
        let mut packer = Packer::new(Halves);
        assert_eq!(rt; closings.add(ClosingLine::default()).is_ok(), true);
        assert_eq!(rt;
            packer
                .put(piece(1, 0, 0), &mut places, &mut closings)
                .is_ok(),
            true
        );
        let Ok(placing) = packer.put(piece(2, 0, 0), &mut places, &mut closings) else {
            return Err(Fail::new("refused"));
        };
        assert_eq!(rt; placing.container, 2);
        assert_eq!(rt; placing.before, closings.get(1));
        assert_eq!(rt; placing.after, closings.get(2));
        assert_eq!(rt;
            closings.get(1),
            Some(ClosingLine {
                container: 1,
                class: 1,
                pieces: 1,
                level: 1,
                weight: 1,
                used: 2,
                floor: 2,
            })
        );
        assert_eq!(rt; closings.get(2).is_some(), true);
        assert_eq!(rt; closings.get(3), None);
        assert_eq!(rt; closings.room(), 0);
        assert_eq!(rt; places.len(), 2);
        Ok(())
    }

    // A list with too little room refuses, and nothing changes.
    #[test]
    fn short_lists(rt: HostRuntime) {
        let mut place_memory = [PlaceLine::default(); 1];
        let mut closing_memory = [ClosingLine::default(); 1];
        let mut none = [PlaceLine::default(); 0];
        let mut packer = Packer::new(Halves);
        let mut closings = Lines::new(&mut closing_memory);
        let mut nowhere = Lines::new(&mut none);
        assert_eq!(rt;
            refused(packer.put(piece(1, 0, 0), &mut nowhere, &mut closings)),
            6
        );
        let mut places = Lines::new(&mut place_memory);
        assert_eq!(rt;
            refused(packer.put(piece(3, 0, 0), &mut places, &mut closings)),
            3
        );
        assert_eq!(rt;
            refused(packer.put(piece(1, 0, 0), &mut places, &mut closings)),
            0
        );
        assert_eq!(rt; places.add(PlaceLine::default()).is_ok(), false);
        let mut more_memory = [PlaceLine::default(); 1];
        let mut more = Lines::new(&mut more_memory);
        assert_eq!(rt;
            refused(packer.put(piece(2, 0, 0), &mut more, &mut closings)),
            6
        );
        assert_eq!(rt; more.len(), 0);
        assert_eq!(rt; closings.len(), 0);
        let report = packer.report();
        assert_eq!(rt; report.accepted, 1);
        assert_eq!(rt; report.opened, 1);
        assert_eq!(rt; report.unclosed, 1);
    }

    fn refused(answer: Result<Placing, PutRefusal>) -> u8 {
        match answer {
            Ok(_) => 0,
            Err(refusal) => refusal.number(),
        }
    }

    // The worked questions of the rules.
    #[test]
    fn worked(rt: HostRuntime) -> Result<(), Fail> {
        let cut = Allowance::new(1, Bars::new(12, 3)?)?;
        assert_eq!(rt; cut.refusal(&piece(12, 0, 0)), Some(PieceRefusal::First));
        assert_eq!(rt; cut.class(&piece(6, 0, 0)), 1);
        let finished = Finishes::new(2, Bars::new(12, 3)?)?;
        assert_eq!(rt; finished.class(&piece(5, 0, 1)), 5);
        assert_eq!(rt;
            finished.refusal(&piece(5, 0, 2)),
            Some(PieceRefusal::Finish)
        );
        Ok(())
    }
}
