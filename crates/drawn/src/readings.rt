// Archive lines, sound and spoilt, and what the reader answers. As in a plan, what is drawn is a number,
// and choices are a match or an `if` on it.
use crate::text::{Bytes, Fields, START, sum_of};
use archive::line::{ClosingLine, HeadingLine, Line, PlaceLine};
use archive::reader::read;
use archive::writer::write;
use draws::Generator;
use refusals::{ReadRefusal, Refusal, WriteRefusal};
use std::alloc::{AllocError, Global};

pub const SAMPLES: [Line; 3] = [
    Line::Place(PlaceLine {
        number: 1,
        first: 7,
        second: 3,
        finish: 2,
        container: 258,
        class: 5,
    }),
    Line::Closing(ClosingLine {
        container: 258,
        class: 1,
        pieces: 3,
        level: 11,
        weight: 66,
        used: 4,
        floor: 3,
    }),
    Line::Heading(HeadingLine {
        code: 2,
        capacity: 1_000_000,
        k: 12,
        limit: 50,
        allowance: 4,
        finishes: 2,
        unit: 15_246_000_000_000,
        ceiling: 41_052_000_000_000,
        standing: 22,
    }),
];

// What builds bytes or a text of its own takes the heap beside the text that it writes to: a struct of
// the two would be no plainer, as other functions take only one of them.

// The bytes of a line, at the front of the memory.
pub(crate) fn written<'a>(line: &Line, memory: &'a mut [u8]) -> Result<&'a [u8], WriteRefusal> {
    let length = write(line, memory)?;
    Ok(&memory[..length])
}

// The reader's answer to some bytes as a line of text.
fn answer_text(
    text: &mut String,
    answer: &Result<(Line, usize), ReadRefusal>,
) -> Result<(), AllocError> {
    match answer {
        Ok((line, length)) => {
            // as the page on drawn cases numbers them
            let sort = match line {
                Line::Place(_) => 0,
                Line::Closing(_) => 1,
                Line::Heading(_) => 2,
            };
            writeln!(text, "o {length} {sort}{}", Fields(line))
        }
        Err(refusal) => {
            let number = refusal.number();
            let (ReadRefusal::Ended { at }
            | ReadRefusal::NoField { at }
            | ReadRefusal::Zero { at }) = refusal;
            writeln!(text, "q {number} {at}")
        }
    }
}

// How often the reader took a line, and how often it refused with 13, 14 and 15; and the sum of all
// its answers.
#[derive(Drop)]
struct Tally {
    taken: u32,
    ended: u32,
    no_field: u32,
    zero: u32,
    sum: u64,
}

impl Tally {
    fn new() -> Tally {
        Tally {
            taken: 0,
            ended: 0,
            no_field: 0,
            zero: 0,
            sum: START,
        }
    }

    fn add(&mut self, heap: Global, bytes: &[u8]) -> Result<(), AllocError> {
        let answer = read(bytes);
        let count = match answer {
            Ok(_) => &mut self.taken,
            Err(ReadRefusal::Ended { .. }) => &mut self.ended,
            Err(ReadRefusal::NoField { .. }) => &mut self.no_field,
            Err(ReadRefusal::Zero { .. }) => &mut self.zero,
        };
        *count = count.saturating_add(1);
        let mut text = String::new(heap);
        answer_text(&mut text, &answer)?;
        self.sum = sum_of(self.sum, text.as_str());
        Ok(())
    }

    fn tell(&self, text: &mut String, letter: &str) -> Result<(), AllocError> {
        let Tally {
            taken,
            ended,
            no_field,
            zero,
            sum,
        } = self;
        writeln!(
            text,
            "{letter} {taken} {ended} {no_field} {zero} {sum:016x}"
        )
    }
}

fn byte(draw: &mut Generator) -> u8 {
    draw.below(256) as u8
}

// The bytes of a number, high byte first, or of 0 for a field that is left out.
fn field<const WIDTH: usize>(draw: &mut Generator) -> [u8; WIDTH] {
    let mut bytes = [0; WIDTH];
    if draw.below(3) != 0 {
        bytes.fill_with(|| byte(draw));
    }
    bytes
}

fn drawn_line(draw: &mut Generator) -> Line {
    match draw.below(3) {
        0 => Line::Place(PlaceLine {
            number: u32::from_be_bytes(field(draw)),
            first: u32::from_be_bytes(field(draw)),
            second: u32::from_be_bytes(field(draw)),
            finish: u8::from_be_bytes(field(draw)),
            container: u32::from_be_bytes(field(draw)),
            class: u8::from_be_bytes(field(draw)),
        }),
        1 => Line::Closing(ClosingLine {
            container: u32::from_be_bytes(field(draw)),
            class: u8::from_be_bytes(field(draw)),
            pieces: u32::from_be_bytes(field(draw)),
            level: u32::from_be_bytes(field(draw)),
            weight: u64::from_be_bytes(field(draw)),
            used: u64::from_be_bytes(field(draw)),
            floor: u64::from_be_bytes(field(draw)),
        }),
        _ => Line::Heading(HeadingLine {
            code: u8::from_be_bytes(field(draw)),
            capacity: u32::from_be_bytes(field(draw)),
            k: u8::from_be_bytes(field(draw)),
            limit: u8::from_be_bytes(field(draw)),
            allowance: u16::from_be_bytes(field(draw)),
            finishes: u8::from_be_bytes(field(draw)),
            unit: u64::from_be_bytes(field(draw)),
            ceiling: u64::from_be_bytes(field(draw)),
            standing: u32::from_be_bytes(field(draw)),
        }),
    }
}

fn set_byte(bytes: &mut [u8], at: usize, value: u8) {
    if let Some(byte) = bytes.get_mut(at) {
        *byte = value;
    }
}

// One of six harms, the first of them none. What is drawn is a number, and no two harms draw alike.
fn harm(bytes: &mut Vec<u8>, draw: &mut Generator) -> Result<(), AllocError> {
    let length = bytes.len() as u64;
    match draw.below(6) {
        1 => bytes.truncate(draw.below(length) as usize),
        2 => {
            let at = draw.below(length) as usize;
            set_byte(bytes, at, byte(draw));
        }
        3 => {
            set_byte(bytes, 0, byte(draw));
            set_byte(bytes, 1, byte(draw));
        }
        4 => {
            for _ in 0..=draw.below(4) {
                bytes.push(byte(draw))?;
            }
        }
        5 => {
            let at = draw.below(length) as usize;
            set_byte(bytes, at, 0);
        }
        _ => {}
    }
    Ok(())
}

// Reading number i.
pub(crate) fn reading(heap: Global, text: &mut String, i: u32) -> anyhow::Result<()> {
    let mut draw = Generator::seeded(i as u64 + 10_000);
    let mut memory = [0; 64];
    let mut bytes = Vec::from_slice(heap, written(&drawn_line(&mut draw), &mut memory)?)?;
    harm(&mut bytes, &mut draw)?;
    writeln!(text, "{}", Bytes(bytes.as_slice()))?;
    answer_text(text, &read(bytes.as_slice()))?;
    Ok(())
}

// What the writer answers of memory that is one byte too short, and that it leaves it alone.
fn too_short(text: &mut String, line: &Line, length: usize) -> Result<(), AllocError> {
    let mut memory = [7u8; 64];
    match write(line, &mut memory[..length.saturating_sub(1).min(64)]) {
        Ok(_) => writeln!(text, "w 0 0")?,
        Err(refusal) => {
            let number = refusal.number();
            let needed = refusal.needed;
            writeln!(text, "w {number} {needed}")?;
        }
    }
    let kept = memory.iter().all(|byte| *byte == 7);
    writeln!(text, "u {}", u8::from(kept))
}

// Every cut of a line, and every change of one byte.
pub(crate) fn spoilt(heap: Global, text: &mut String, line: &Line) -> anyhow::Result<()> {
    let mut memory = [0; 64];
    let bytes = written(line, &mut memory)?;
    writeln!(text, "{}", Bytes(bytes))?;
    too_short(text, line, bytes.len())?;
    // Here and below the index is what is tried: an iterator would be no plainer, as it would carry it.
    for cut in 0..bytes.len() {
        answer_text(text, &read(&bytes[..cut]))?;
    }
    let mut tally = Tally::new();
    for at in 0..bytes.len() {
        for value in 0..=255 {
            let mut changed = Vec::from_slice(heap, bytes)?;
            set_byte(&mut changed, at, value);
            tally.add(heap, changed.as_slice())?;
        }
    }
    tally.tell(text, "b")?;
    Ok(())
}

// Every map, with so many bytes behind it that are all 1.
pub(crate) fn maps(heap: Global, text: &mut String, behind: usize) -> Result<(), AllocError> {
    let mut tally = Tally::new();
    for map in 0..=u16::MAX {
        let mut bytes = Vec::from_slice(heap, &map.to_be_bytes())?;
        bytes.resize(behind.saturating_add(2), 1)?;
        tally.add(heap, bytes.as_slice())?;
    }
    tally.tell(text, "m")
}
