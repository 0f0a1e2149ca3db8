// Lines of text, collected until they are printed or summed up.
use archive::line::Line;
use std::fmt;

pub const START: u64 = 0xcbf2_9ce4_8422_2325;

// What the first program shows of lines and bytes has other words, so each has its own.

// The fields of a line in the order of their bits, a space before each.
#[derive(Drop)]
pub(crate) struct Fields<'a>(pub(crate) &'a Line);

impl fmt::Display for Fields<'_> {
    fn fmt<W: fmt::Write>(&self, f: &mut fmt::Formatter<W>) -> fmt::Result {
        match self.0 {
            Line::Place(l) => write!(
                f,
                " {} {} {} {} {} {}",
                l.number, l.first, l.second, l.finish, l.container, l.class
            ),
            Line::Closing(l) => write!(
                f,
                " {} {} {} {} {} {} {}",
                l.container, l.class, l.pieces, l.level, l.weight, l.used, l.floor
            ),
            Line::Heading(l) => write!(
                f,
                " {} {} {} {} {} {} {} {} {}",
                l.code,
                l.capacity,
                l.k,
                l.limit,
                l.allowance,
                l.finishes,
                l.unit,
                l.ceiling,
                l.standing
            ),
        }
    }
}

// Bytes in hexadecimal behind a letter, and the letter alone where there are none.
#[derive(Drop)]
pub(crate) struct Bytes<'a>(pub(crate) &'a [u8]);

impl fmt::Display for Bytes<'_> {
    fn fmt<W: fmt::Write>(&self, f: &mut fmt::Formatter<W>) -> fmt::Result {
        f.write_str(if self.0.is_empty() { "y" } else { "y " })?;
        self.0.iter().try_for_each(|byte| write!(f, "{byte:02x}"))
    }
}

// FNV-1a, going on from an earlier sum.
pub(crate) fn sum_of(start: u64, text: &str) -> u64 {
    text.bytes().fold(start, |sum, byte| {
        (sum ^ byte as u64).wrapping_mul(0x0000_0100_0000_01b3)
    })
}
