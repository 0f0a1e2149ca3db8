// A season from beginning to end: a pile, its heading, pieces one by one, the report, the archive.
use crate::lines::Reading;
use archive::line::{ClosingLine, HeadingLine, Line, PlaceLine};
use archive::writer::write;
use kinds::Kind;
use kinds::bars::Bars;
use kinds::piece::Piece;
use layers::allowance::Allowance;
use layers::finishes::Finishes;
use ledger::{Placing, Report};
use packer::Packer;
use packer::lines::Lines;
use refusals::{MakeRefusal, PutRefusal, Refusal};

type Pile = Finishes<Allowance<Bars>>;

// A pile: two finishes over a saw cut of 4 over bars.
pub(crate) fn finished_bars() -> Result<Pile, MakeRefusal> {
    Finishes::new(2, Allowance::new(4, Bars::new(6000, 3)?)?)
}

// A packer, and the bytes of its archive.
#[derive(Drop)]
struct Season {
    packer: Packer<Pile>,
    archive: Vec<u8>,
}

impl Season {
    // Puts a line behind the bytes that the archive has.
    fn store(&mut self, line: &Line) -> anyhow::Result<()> {
        let mut memory = [0u8; 48];
        let length = write(line, &mut memory)?;
        self.archive.extend_from_slice(&memory[..length])?;
        Ok(())
    }

    // One put, with a note of what it did; its lines go into the archive.
    fn put(&mut self, rt: &impl Print, piece: Piece) -> anyhow::Result<()> {
        let mut place_memory = [PlaceLine::default(); 1];
        let mut closing_memory = [ClosingLine::default(); 2];
        let mut places = Lines::new(&mut place_memory);
        let mut closings = Lines::new(&mut closing_memory);
        let answer = self.packer.put(piece, &mut places, &mut closings);
        show_answer(rt, &piece, &answer)?;
        let places = places.view().iter().copied().map(Line::Place);
        let closings = closings.view().iter().copied().map(Line::Closing);
        for line in places.chain(closings) {
            self.store(&line)?;
        }
        Ok(())
    }

    // Reads the archive from its start, line by line, to its end.
    fn read_back(&self, rt: &impl Print) -> anyhow::Result<()> {
        let size = self.archive.len();
        let mut reading = Reading {
            rest: self.archive.as_slice(),
        };
        let lines = reading.by_ref().count();
        match reading.rest.len() {
            0 => println!(rt; "  The archive has {size} bytes, which read back as {lines} lines.")?,
            left => {
                let at = size.saturating_sub(left);
                println!(rt; "  The archive does NOT read back: {at} of {size} bytes.")?;
            }
        }
        Ok(())
    }
}

fn show_closing(rt: &impl Print, closing: &ClosingLine, why: &str) -> anyhow::Result<()> {
    let ClosingLine {
        container,
        class: _,
        pieces,
        level,
        weight,
        used,
        floor,
    } = *closing;
    println!(rt;
        "    Bar {container} closes, {why}: {pieces} pieces, level {level}, weight {weight}."
    )?;
    println!(rt; "    Bars used so far: {used}. No plan could have used fewer than {floor}.")?;
    Ok(())
}

fn show_answer(
    rt: &impl Print,
    piece: &Piece,
    answer: &Result<Placing, PutRefusal>,
) -> anyhow::Result<()> {
    let number = piece.number;
    let first = piece.first;
    let finish = piece.finish;
    print!(rt; "  rail {number}, {first} long, finish {finish}: ")?;
    match answer {
        Err(refusal) => {
            let why = refusal.number();
            println!(rt; "refused with {why}; nothing changes.")?;
        }
        Ok(placing) => {
            let container = placing.container;
            let class = placing.class;
            println!(rt; "bar {container}, class {class}.")?;
            if let Some(before) = &placing.before {
                show_closing(rt, before, "since the rail does not fit it")?;
            }
            if let Some(after) = &placing.after {
                show_closing(rt, after, "since it is full")?;
            }
        }
    }
    Ok(())
}

fn show_report(rt: &impl Print, report: &Report, standing: u64) -> anyhow::Result<()> {
    let Report {
        accepted,
        opened,
        used,
        unclosed,
        weight,
        floor,
    } = *report;
    println!(rt;
        "  Report: {accepted} rails in {opened} bars, used cost {used}, of which {unclosed} still open; weight {weight}, floor {floor}."
    )?;
    println!(rt;
        "  That is proved: these rails, cut as told, are a plan that uses {used} bars; every plan for them"
    )?;
    println!(rt;
        "  uses at least {floor}; and what was used is at most 7/4 of that, and {standing} bars that may stand open."
    )?;
    Ok(())
}

pub(crate) fn show_season(rt: &HostRuntime) -> anyhow::Result<()> {
    let pile = finished_bars()?;
    let unit = pile.unit();
    let ceiling = pile.ceiling();
    println!(rt; "A season: bars of 6000 in three classes, a saw cut of 4, two finishes")?;
    let mut season = Season {
        packer: Packer::new(pile),
        archive: Vec::new(rt.alloc()),
    };
    let standing = season.packer.standing_cost();
    season.store(&Line::Heading(HeadingLine {
        code: Pile::CODE,
        capacity: 6000,
        k: 3,
        limit: 0,
        allowance: 4,
        finishes: 2,
        unit,
        ceiling,
        standing: u32::try_from(standing)?,
    }))?;
    println!(rt; "  Heading: unit {unit}, ceiling {ceiling}, standing cost {standing}.")?;
    for (number, first, finish) in [
        (1, 3500, 0),
        (2, 2400, 0),
        (3, 2400, 1),
        (4, 1500, 0),
        (5, 2100, 0),
        (6, 7000, 0),
        (7, 1990, 0),
        (8, 1990, 0),
        (9, 1000, 2),
        (10, 1990, 0),
        (11, 2996, 1),
    ] {
        let piece = Piece {
            number,
            first,
            second: 0,
            finish,
        };
        season.put(rt, piece)?;
    }
    show_report(rt, &season.packer.report(), standing)?;
    season.read_back(rt)
}
