// The worked cases of the rules: as one fact about the definitions, and run as tests.
#![tactic(auto)]

ghost use Rattle.worked.specs.Worked.{Worked};

// The worked cases follow from the definitions that all contracts cite.
#[tactic(auto, unfolding(kinds::specs::Strips::rank))]
pub fn worked_cases() -> u8
    ensures { Worked }
{
    0
}

#[cfg(test)]
mod tests {
    use kinds::Kind;
    use kinds::bars::Bars;
    use kinds::laid::Laid;
    use kinds::piece::Piece;
    use kinds::strips::Strips;
    use kinds::totes::Totes;
    use layers::allowance::Allowance;
    use layers::finishes::Finishes;
    use refusals::{PieceRefusal, Refusal};
    use std::test::Fail;

    fn piece(first: u32, second: u32, finish: u8) -> Piece {
        Piece {
            number: 1,
            first,
            second,
            finish,
        }
    }

    #[test]
    fn bars_of_twelve(rt: HostRuntime) -> Result<(), Fail> {
        let bars = Bars::new(12, 3)?;
        assert_eq!(rt; bars.unit(), 48);
        assert_eq!(rt; bars.ceiling(), 84);
        for (length, class, weight) in [
            (7, 1, 48),
            (5, 2, 24),
            (4, 3, 24),
            (6, 2, 24),
            (3, 3, 18),
            (2, 3, 12),
        ] {
            assert_eq!(rt; bars.class(&piece(length, 0, 0)), class);
            assert_eq!(rt; bars.weight(&piece(length, 0, 0)), weight);
        }
        assert_eq!(rt; bars.refusal(&piece(13, 0, 0)), Some(PieceRefusal::First));
        Ok(())
    }

    #[test]
    fn totes_of_ten(rt: HostRuntime) -> Result<(), Fail> {
        let totes = Totes::new(10, 2, 3)?;
        assert_eq!(rt; totes.unit(), 30);
        assert_eq!(rt; totes.ceiling(), 90);
        assert_eq!(rt; totes.weight(&piece(1, 0, 0)), 16);
        assert_eq!(rt; totes.full(2, 2, 2), false);
        assert_eq!(rt; totes.full(2, 3, 3), true);
        Ok(())
    }

    #[test]
    fn strips_of_ten(rt: HostRuntime) -> Result<(), Fail> {
        let strips = Strips::new(10)?;
        for (width, height, class, weight, cost) in [
            (5, 3, 3, 60, 4),
            (6, 3, 16, 72, 4),
            (5, 5, 4, 100, 8),
        ] {
            assert_eq!(rt; strips.class(&piece(width, height, 0)), class);
            assert_eq!(rt; strips.weight(&piece(width, height, 0)), weight);
            assert_eq!(rt; strips.cost(class), cost);
        }
        Ok(())
    }

    // An admitted piece begins at the level that it finds; one that is refused has place 0.
    #[test]
    fn places(rt: HostRuntime) -> Result<(), Fail> {
        let bars = Bars::new(12, 3)?;
        assert_eq!(rt; bars.place(7, &piece(5, 0, 0)), 7);
        assert_eq!(rt; bars.place(7, &piece(13, 0, 0)), 0);
        let strips = Strips::new(10)?;
        assert_eq!(rt; strips.place(5, &piece(5, 3, 0)), 5);
        assert_eq!(rt; strips.place(5, &piece(5, 0, 0)), 0);
        let cut = Allowance::new(1, Bars::new(12, 3)?)?;
        assert_eq!(rt; cut.place(3, &piece(11, 0, 0)), 3);
        assert_eq!(rt; cut.place(3, &piece(12, 0, 0)), 0);
        let finished = Finishes::new(2, Bars::new(12, 3)?)?;
        assert_eq!(rt; finished.place(4, &piece(5, 0, 1)), 4);
        assert_eq!(rt; finished.place(4, &piece(5, 0, 2)), 0);
        Ok(())
    }

    // Measures and questions at and beyond the ends of their ranges.
    #[test]
    fn out_of_range(rt: HostRuntime) -> Result<(), Fail> {
        for (capacity, k, limit, number) in [
            (0, 13, 51, 7),
            (1_000_001, 13, 51, 7),
            (u32::MAX, 2, 2, 7),
            (1, 1, 51, 8),
            (1, 13, 51, 8),
            (1, 300, 51, 8),
            (1, 3, 2, 9),
            (1, 3, 51, 9),
            (1_000_000, 12, 50, 0),
        ] {
            let refused = match Totes::new(capacity, k, limit) {
                Ok(_) => 0,
                Err(refusal) => refusal.number(),
            };
            assert_eq!(rt; refused, number);
        }
        let bars = Bars::new(1_000_000, 12)?;
        let long = piece(u32::MAX, u32::MAX, 255);
        assert_eq!(rt; bars.refusal(&long), Some(PieceRefusal::Finish));
        assert_eq!(rt; bars.weight(&long), 0);
        assert_eq!(rt; bars.fits(12, u32::MAX, u32::MAX, &piece(1, 0, 0)), false);
        assert_eq!(rt; bars.fits(255, 0, 0, &piece(1, 0, 0)), false);
        assert_eq!(rt; bars.full(0, u32::MAX, u32::MAX), false);
        assert_eq!(rt; bars.cost(255), 0);
        Ok(())
    }
}
