// A piece to be packed. Two pieces may bear the same number.
#[derive(Clone, Copy, PartialEq, Eq, Debug)]
pub struct Piece {
    pub number: u32,
    // a length, a mass or a width
    pub first: u32,
    // a height, where the kind has one
    pub second: u32,
    pub finish: u8,
}
