// What a sort of line is: its tag, the widths of its fields, and a line as numbers and back.
ghost use Rattle.std.specs.Prelude.{◌≡◌, ℕ, ◌<◌, ◌≤◌, List, All, length, refl};
ghost use Rattle.std.proofs.Common.{ap, lit<, lit≤};
ghost use Rattle.archive.specs.declared.line.Line.{Line};
ghost use Rattle.archive.specs.Fields.{Fit};
ghost use Rattle.archive.specs.Lines.{Field, place_fields, closing_fields, heading_fields, tag, values as values_in, widths_by, widths_of, values_of};

use crate::line::{ClosingLine, HeadingLine, Line, PlaceLine};

// Lines of N fields, which bits of the map stand for, from bit 0 up. A line as numbers and back are
// methods here, beside the laws that tie them: as `From` and `TryFrom` they would be impls of their own, and
// no plainer.
pub(crate) trait Sort<const N: usize>: Into<Line> {
    ghost TAG: { ℕ };

    ghost WIDTHS: { List ℕ };

    ghost fields: { List (Field Self) };

    // The top two bits of the map.
    const TAG: u64;

    // The fields' widths in bytes.
    const WIDTHS: [u8; N];

    fn values(&self) -> [u64; N]
        ensures value { result ≡ values_of fields self.now }
        ensures fit { Fit WIDTHS (values_of fields self.now) };

    fn from_values(values: &[u64; N]) -> Self
        requires { Fit WIDTHS values.now }
        ensures { values_of fields result ≡ values.now };

    // There is no fourth sort.
    ghost known: { TAG < 3 };

    // The map has a bit for each field.
    ghost few: { N ≤ 14 };

    ghost many: { length WIDTHS ≡ N };

    // A value is a u64.
    ghost narrow: { All (λ w. w ≤ 8) WIDTHS };

    ghost widths: { widths_by TAG ≡ WIDTHS };

    // A line of this sort says so, and has its values.
    ghost is_line: { (x : Self) (l : Line) → Self.converts x l → (tag l ≡ TAG) × (values_in l ≡ values_of fields x) };
}

impl Sort<6> for PlaceLine {
    ghost use Rattle.archive.specs.SortLaws.{narrow_place};

    ghost TAG = { 0 };

    ghost WIDTHS = { widths_of place_fields };

    ghost fields = { place_fields };

    ghost known = { lit< tt };

    ghost few = { lit≤ tt };

    ghost many = { refl };

    ghost narrow = { narrow_place };

    ghost widths = { refl };

    ghost is_line = { λ _ _ e. (ap tag e, ap values_in e) };

    const TAG: u64 = 0;

    const WIDTHS: [u8; 6] = [4, 4, 4, 1, 4, 1];

    fn values(&self) -> [u64; 6] {
        [
            self.number as u64,
            self.first as u64,
            self.second as u64,
            self.finish as u64,
            self.container as u64,
            self.class as u64,
        ]
    }

    fn from_values(values: &[u64; 6]) -> PlaceLine {
        let [number, first, second, finish, container, class] = *values;
        PlaceLine {
            number: number as u32,
            first: first as u32,
            second: second as u32,
            finish: finish as u8,
            container: container as u32,
            class: class as u8,
        }
    }
}

impl Sort<7> for ClosingLine {
    ghost use Rattle.archive.specs.SortLaws.{narrow_closing};

    ghost TAG = { 1 };

    ghost WIDTHS = { widths_of closing_fields };

    ghost fields = { closing_fields };

    ghost known = { lit< tt };

    ghost few = { lit≤ tt };

    ghost many = { refl };

    ghost narrow = { narrow_closing };

    ghost widths = { refl };

    ghost is_line = { λ _ _ e. (ap tag e, ap values_in e) };

    const TAG: u64 = 1;

    const WIDTHS: [u8; 7] = [4, 1, 4, 4, 8, 8, 8];

    fn values(&self) -> [u64; 7] {
        [
            self.container as u64,
            self.class as u64,
            self.pieces as u64,
            self.level as u64,
            // `u64::from` of a u64: with the field alone the proof of `fit` did not close
            u64::from(self.weight),
            u64::from(self.used),
            u64::from(self.floor),
        ]
    }

    fn from_values(values: &[u64; 7]) -> ClosingLine {
        let [container, class, pieces, level, weight, used, floor] = *values;
        ClosingLine {
            container: container as u32,
            class: class as u8,
            pieces: pieces as u32,
            level: level as u32,
            weight,
            used,
            floor,
        }
    }
}

impl Sort<9> for HeadingLine {
    ghost use Rattle.archive.specs.SortLaws.{narrow_heading};

    ghost TAG = { 2 };

    ghost WIDTHS = { widths_of heading_fields };

    ghost fields = { heading_fields };

    ghost known = { lit< tt };

    ghost few = { lit≤ tt };

    ghost many = { refl };

    ghost narrow = { narrow_heading };

    ghost widths = { refl };

    ghost is_line = { λ _ _ e. (ap tag e, ap values_in e) };

    const TAG: u64 = 2;

    const WIDTHS: [u8; 9] = [1, 4, 1, 1, 2, 1, 8, 8, 4];

    fn values(&self) -> [u64; 9] {
        [
            self.code as u64,
            self.capacity as u64,
            self.k as u64,
            self.limit as u64,
            self.allowance as u64,
            self.finishes as u64,
            // `u64::from` of a u64: with the field alone the proof of `fit` did not close
            u64::from(self.unit),
            u64::from(self.ceiling),
            self.standing as u64,
        ]
    }

    fn from_values(values: &[u64; 9]) -> HeadingLine {
        let [
            code,
            capacity,
            k,
            limit,
            allowance,
            finishes,
            unit,
            ceiling,
            standing,
        ] = *values;
        HeadingLine {
            code: code as u8,
            capacity: capacity as u32,
            k: k as u8,
            limit: limit as u8,
            allowance: allowance as u16,
            finishes: finishes as u8,
            unit,
            ceiling,
            standing: standing as u32,
        }
    }
}
