// Archive lines: written, shown as bytes, read back.
ghost use Rattle.std.specs.Prelude.{length};
ghost use Rattle.std.specs.Iterator.{at_most};

use archive::line::{ClosingLine, HeadingLine, Line, PlaceLine};
use archive::reader::read;
use archive::writer::write;
use refusals::Refusal;
use std::{fmt, io};

// A line with the names of its fields.
#[derive(Drop)]
struct Named<'a>(&'a Line);

impl fmt::Display for Named<'_> {
    fn fmt<W: fmt::Write>(&self, f: &mut fmt::Formatter<W>) -> fmt::Result {
        match *self.0 {
            Line::Place(
                PlaceLine {
                    number,
                    first,
                    second,
                    finish,
                    container,
                    class,
                },
            ) => write!(
                f,
                "place: number {number}, first measure {first}, second measure {second}, finish {finish}, container {container}, class {class}"
            ),
            Line::Closing(
                ClosingLine {
                    container,
                    class,
                    pieces,
                    level,
                    weight,
                    used,
                    floor,
                },
            ) => write!(
                f,
                "closing: container {container}, class {class}, pieces {pieces}, level {level}, weight {weight}, used cost {used}, floor {floor}"
            ),
            Line::Heading(
                HeadingLine {
                    code,
                    capacity,
                    k,
                    limit,
                    allowance,
                    finishes,
                    unit,
                    ceiling,
                    standing,
                },
            ) => write!(
                f,
                "heading: kind code {code}, capacity {capacity}, class number {k}, piece limit {limit}, allowance {allowance}, finishes {finishes}, unit {unit}, ceiling {ceiling}, standing cost {standing}"
            ),
        }
    }
}

// Bytes in hexadecimal, a space before each.
#[derive(Drop)]
struct Spaced<'a>(&'a [u8]);

impl fmt::Display for Spaced<'_> {
    fn fmt<W: fmt::Write>(&self, f: &mut fmt::Formatter<W>) -> fmt::Result {
        self.0.iter().try_for_each(|byte| write!(f, " {byte:02x}"))
    }
}

// The lines that the bytes begin with, one after another. What is left behind the last is no line.
#[derive(Drop)]
pub(crate) struct Reading<'a> {
    pub(crate) rest: &'a [u8],
}

impl Iterator for Reading<'_> {
    type Item = Line;

    ghost remaining = { λ s. at_most (length s.rest.now) };

    fn next(&mut self) -> Option<Line> {
        // `read(self.rest).ok()?` was tried, and the proof did not close
        let Ok((line, length)) = read(self.rest) else {
            return None;
        };
        self.rest = &self.rest[length..];
        Some(line)
    }
}

fn show_line(rt: &impl Print, line: &Line) -> io::Result<()> {
    let mut memory = [0xeeu8; 48];
    println!(rt; "  {}", Named(line))?;
    match write(line, &mut memory) {
        Ok(length) => {
            println!(rt; "   {}", Spaced(&memory[..length]))?;
            // whatever stands behind them
            if read(&memory) == Ok((*line, length)) {
                println!(rt; "    {length} bytes, which read back as the same line.")
            } else {
                println!(rt; "    {length} bytes, which do NOT read back.")
            }
        }
        Err(refusal) => {
            let number = refusal.number();
            println!(rt; "    Refused with {number}: {refusal}.")
        }
    }
}

// A heading, two places and a closing, as the archive has them.
pub(crate) fn archive_lines(rt: &impl Print) -> io::Result<()> {
    println!(rt; "Archive lines: a map of two bytes, then the fields that are not 0")?;
    for line in [
        Line::Heading(HeadingLine {
            code: 1,
            capacity: 12,
            k: 3,
            limit: 0,
            allowance: 0,
            finishes: 1,
            unit: 48,
            ceiling: 84,
            standing: 2,
        }),
        Line::Place(PlaceLine {
            number: 1,
            first: 7,
            second: 0,
            finish: 0,
            container: 1,
            class: 1,
        }),
        Line::Closing(ClosingLine {
            container: 1,
            class: 1,
            pieces: 1,
            level: 7,
            weight: 48,
            used: 1,
            floor: 1,
        }),
    ] {
        show_line(rt, &line)?;
    }
    spoilt_line(rt)
}

// Bytes that nobody wrote. Their field of 0 is the cause, which the note says in words of its own.
fn spoilt_line(rt: &impl Print) -> io::Result<()> {
    let bytes = [0u8, 1, 0, 0, 0, 0];
    println!(rt; "  Spoilt bytes")?;
    println!(rt; "   {}", Spaced(&bytes))?;
    match read(&bytes) {
        Ok((line, _)) => println!(rt; "  {}", Named(&line)),
        Err(refusal) => {
            let number = refusal.number();
            println!(rt; "    Refused with {number}: a field that is present must not be 0.")
        }
    }
}
