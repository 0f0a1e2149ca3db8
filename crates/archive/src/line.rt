// The lines of the archive: where a piece went, what closed, and what a season was packed into.
ghost use Rattle.std.specs.Prelude.{◌≡◌};

// A piece, as it was handed over, with its container.
#[derive(Clone, Copy, PartialEq, Eq, Default, Debug)]
pub struct PlaceLine {
    pub number: u32,
    pub first: u32,
    pub second: u32,
    pub finish: u8,
    pub container: u32,
    pub class: u8,
}

// A container that closed, with the used cost and the floor then.
#[derive(Clone, Copy, PartialEq, Eq, Default, Debug)]
pub struct ClosingLine {
    pub container: u32,
    pub class: u8,
    pub pieces: u32,
    pub level: u32,
    pub weight: u64,
    pub used: u64,
    pub floor: u64,
}

// The measures and figures of a pile.
#[derive(Clone, Copy, PartialEq, Eq, Default, Debug)]
pub struct HeadingLine {
    // any number: the archive keeps what it is given, and a kind from outside has a code of its own
    pub code: u8,
    // capacity or width
    pub capacity: u32,
    // class number
    pub k: u8,
    // piece limit
    pub limit: u8,
    pub allowance: u16,
    pub finishes: u8,
    pub unit: u64,
    pub ceiling: u64,
    pub standing: u32,
}

// A line of any of the three sorts.
#[derive(Clone, Copy, PartialEq, Eq, Debug)]
pub enum Line {
    Place(PlaceLine),
    Closing(ClosingLine),
    Heading(HeadingLine),
}

impl From<PlaceLine> for Line {
    ghost use Rattle.archive.specs.declared.line.Line.TheVariants.{Place};

    ghost from_gives = { λ place line. line ≡ Place place };

    fn from(place: PlaceLine) -> Line {
        Line::Place(place)
    }
}

impl From<ClosingLine> for Line {
    ghost use Rattle.archive.specs.declared.line.Line.TheVariants.{Closing};

    ghost from_gives = { λ closing line. line ≡ Closing closing };

    fn from(closing: ClosingLine) -> Line {
        Line::Closing(closing)
    }
}

impl From<HeadingLine> for Line {
    ghost use Rattle.archive.specs.declared.line.Line.TheVariants.{Heading};

    ghost from_gives = { λ heading line. line ≡ Heading heading };

    fn from(heading: HeadingLine) -> Line {
        Line::Heading(heading)
    }
}
