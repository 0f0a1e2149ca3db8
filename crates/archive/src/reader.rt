// Bytes as lines.
ghost use Rattle.std.specs.Prelude.{◌≡◌, true, ◌≤◌, length, drop, IfOk};
ghost use Rattle.std.specs.Int.Digits.{number_from_digits};
ghost use Rattle.archive.specs.Fields.{field};
ghost use Rattle.archive.specs.Lines.{Reads, Front, told as tells, parsed};

use crate::line::{ClosingLine, HeadingLine, Line, PlaceLine};
use crate::sort::Sort;
use refusals::ReadRefusal;

// The line that the bytes begin with, and its length. What stands behind it is not looked at.
pub fn read(bytes: &[u8]) -> Result<(Line, usize), ReadRefusal>
    ensures value { Reads bytes.now result }
    ensures front { IfOk result (λ p. Front bytes.now p.0 p.1) }
{
    let Some(map) = bytes.get(..2) else {
        return Err(ReadRefusal::Ended { at: 0 });
    };
    let map = number(map);
    let bits = (map % 16384) as u16;
    match map / 16384 {
        PlaceLine::TAG => read_sort::<_, PlaceLine>(bytes, bits),
        ClosingLine::TAG => read_sort::<_, ClosingLine>(bytes, bits),
        HeadingLine::TAG => read_sort::<_, HeadingLine>(bytes, bits),
        _ => Err(ReadRefusal::NoField { at: 0 }),
    }
}

// The line of one sort, whose map has these bits below its tag.
fn read_sort<const N: usize, S: Sort<N>>(
    bytes: &[u8],
    bits: u16,
) -> Result<(Line, usize), ReadRefusal>
    requires { 2 ≤ length bytes.now }
    ensures { tells result ≡ parsed S.TAG bits bytes.now }
{
    if bits >> N != 0 {
        return Err(ReadRefusal::NoField { at: 0 });
    }
    let mut values = [0; N];
    let mut at = 2;
    let mut left = bits;
    // The place by its index: over `values.iter_mut().zip(..)` the proof did not close, since the loop's
    // invariant cannot speak of `values` then.
    for (i, &width) in S::WIDTHS.iter().enumerate() {
        if left % 2 == 1 {
            values[i] = field_at(bytes, at, width as usize)?;
            at += width as usize;
        }
        left /= 2;
    }
    Ok((S::from_values(&values).into(), at))
}

// The field of `width` bytes at `at`. Of the bytes from there on it would be no plainer, as a refusal
// tells the offset.
fn field_at(bytes: &[u8], at: usize, width: usize) -> Result<u64, ReadRefusal>
    requires inside { at ≤ length bytes.now }
    requires narrow { width ≤ 8 }
    ensures { result ≡ field true width at (drop at bytes.now) }
{
    let Some(field) = bytes.get(at..at + width) else {
        return Err(ReadRefusal::Ended { at });
    };
    let value = number(field);
    if value == 0 {
        return Err(ReadRefusal::Zero { at });
    }
    Ok(value)
}

// The number that the bytes are, high byte first. There may be fewer than eight, so `from_be_bytes`
// would be no plainer: they would have to be copied behind zeros.
fn number(bytes: &[u8]) -> u64
    requires { length bytes.now ≤ 8 }
    ensures { result ≡ number_from_digits 256 bytes.now }
{
    let mut sum = 0;
    for &byte in bytes {
        sum = sum * 256 + byte as u64;
    }
    sum
}
