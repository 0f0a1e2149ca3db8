// Lines as bytes.
ghost use Rattle.std.specs.Prelude.{◌≡◌, ◌*◌, ◌<◌, ◌≤◌, ◌++◌, length, take, drop, IfOk};
ghost use Rattle.archive.specs.Fields.{BitsStand, Fit, bytes_of, mask, written, encoded};
ghost use Rattle.archive.specs.Lines.{values, values_of, encode, write_answer, write_bytes, ReadsAs};

use crate::line::Line;
use crate::sort::Sort;
use refusals::WriteRefusal;

// Stores the line at the front of the bytes, and tells its length. Bytes behind it stay, and where
// there is no room for it all of them do. The memory is the caller's, since the archive uses no heap.
#[tactic(auto, using(crate::proofs::Numbers::mask_bit))]
pub fn write(line: &Line, bytes: &mut [u8]) -> Result<usize, WriteRefusal>
    ensures value { result ≡ write_answer (encode line.now) bytes.old }
    ensures bytes { bytes.new ≡ write_bytes (encode line.now) bytes.old }
    ensures bits { BitsStand (values line.now) }
    ensures reads { IfOk result (λ n. ReadsAs (take n bytes.new) line.now n) }
{
    match line {
        Line::Place(place) => write_sort(place, bytes),
        Line::Closing(closing) => write_sort(closing, bytes),
        Line::Heading(heading) => write_sort(heading, bytes),
    }
}

// The same for a line of one sort.
fn write_sort<const N: usize, S: Sort<N>>(line: &S, bytes: &mut [u8]) -> Result<usize, WriteRefusal>
    ensures value { result ≡ write_answer (encoded S.TAG S.WIDTHS (values_of S.fields line.now)) bytes.old }
    ensures bytes { bytes.new ≡ write_bytes (encoded S.TAG S.WIDTHS (values_of S.fields line.now)) bytes.old }
    ensures fit { Fit S.WIDTHS (values_of S.fields line.now) }
{
    let values = line.values();
    let (bits, size) = survey::<_, S>(&values);
    let needed = 2 + size;
    if bytes.len() < needed {
        return Err(WriteRefusal { needed });
    }
    let map = S::TAG * 16384 + bits as u64;
    put_number(&mut bytes[..2], map);
    put_fields::<_, S>(&mut bytes[2..], &values);
    Ok(needed)
}

// The map without its tag, and the length of the fields that are not 0.
fn survey<const N: usize, S: Sort<N>>(values: &[u64; N]) -> (u16, usize)
    ensures bits { result.0 ≡ mask values.now }
    ensures size { result.1 ≡ length (written S.WIDTHS values.now) }
    ensures small { (result.0 < 16384) × (result.1 ≤ 8 * 14) }
{
    let mut bits = 0;
    let mut size = 0;
    let mut bit = 1;
    for (&value, &width) in values.iter().zip(&S::WIDTHS) {
        if value != 0 {
            bits += bit;
            size += width as usize;
        }
        bit *= 2;
    }
    (bits, size)
}

// Writes the fields that are not 0 to the front of the bytes. A position goes along: a `&mut` to the
// rest that moves on at each turn would be no plainer, since the contract speaks of all bytes.
fn put_fields<const N: usize, S: Sort<N>>(bytes: &mut [u8], values: &[u64; N])
    requires { length (written S.WIDTHS values.now) ≤ length bytes.old }
    ensures { bytes.new ≡ written S.WIDTHS values.now ++ drop (length (written S.WIDTHS values.now)) bytes.old }
{
    let mut at = 0;
    for (&value, &width) in values.iter().zip(&S::WIDTHS) {
        if value != 0 {
            let end = at + width as usize;
            put_number(&mut bytes[at..end], value);
            at = end;
        }
    }
}

// Writes the value over all of the bytes, high byte first.
fn put_number(bytes: &mut [u8], value: u64)
    requires { length bytes.old ≤ 8 }
    ensures { bytes.new ≡ bytes_of (length bytes.old) value }
{
    bytes.copy_from_slice(&value.to_be_bytes()[8 - bytes.len()..]);
}
