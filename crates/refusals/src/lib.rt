// Why a call refuses: one closed list for each group of calls, and the number of each cause.
#![tactic(auto)]

ghost use Rattle.std.specs.Prelude.{◌≡◌, ℕ, ◌≤◌};
ghost use Rattle.refusals.specs.Numbers.{number_of_piece, number_of_put, number_of_make, number_of_write, number_of_read};
ghost use Rattle.refusals.specs.Listed.{piece_listed, put_listed, make_listed, write_listed, read_listed};
ghost use Rattle.refusals.specs.declared.PutRefusal.TheVariants.{NotAdmitted};

use thiserror::Error;

// What all refusals have: the number of the cause, from 1 to 15. A method, as `From` for u8 would be no
// plainer: `refusal.number()` says which number it is.
pub trait Refusal {
    // the number of each cause
    ghost number_of: { Self → ℕ };

    fn number(&self) -> u8
        ensures { result ≡ number_of self.now };

    ghost listed: { (r : Self) → (1 ≤ number_of r) × (number_of r ≤ 15) };
}

// Why a kind of container does not admit a piece.
#[derive(Clone, Copy, PartialEq, Eq, Debug, Error)]
pub enum PieceRefusal {
    #[error("its finish is not known here")]
    Finish,
    #[error("its first measure is out of range")]
    First,
    #[error("its second measure is out of range")]
    Second,
}

// Why a packer does not take a piece.
#[derive(Clone, Copy, PartialEq, Eq, Debug, Error)]
pub enum PutRefusal {
    #[error("its number is 0")]
    NoNumber,
    // the kind does not admit the piece
    #[error(transparent)]
    NotAdmitted(PieceRefusal),
    #[error("the season has all its pieces")]
    SeasonFull,
    #[error("a list is too short for what the put would add")]
    ListFull,
}

// Why a measure or a layer is not made.
#[derive(Clone, Copy, PartialEq, Eq, Debug, Error)]
pub enum MakeRefusal {
    #[error("the capacity is not from 1 to 1000000")]
    Capacity,
    #[error("the class number is not from 2 to 12")]
    ClassNumber,
    #[error("the piece limit is not from the class number to 50")]
    PieceLimit,
    #[error("the allowance is not from 0 to 1000")]
    Allowance,
    #[error("so many finishes have no room in 104 classes")]
    Finishes,
}

// Why an archive line is not written: the bytes are shorter than the line, which needs this many.
#[derive(Clone, Copy, PartialEq, Eq, Debug, Error)]
#[error("it needs {needed} bytes")]
pub struct WriteRefusal {
    pub needed: usize,
}

// Why bytes are no archive line, and the offset of the map or field at fault.
#[derive(Clone, Copy, PartialEq, Eq, Debug, Error)]
pub enum ReadRefusal {
    #[error("the bytes end inside the map or a field, which begins at {at}")]
    Ended { at: usize },
    #[error("the map at {at} has a bit that no field has")]
    NoField { at: usize },
    #[error("the field at {at} is present, and 0")]
    Zero { at: usize },
}

impl From<PieceRefusal> for PutRefusal {
    ghost from_gives = { λ refusal r. r ≡ NotAdmitted refusal };

    fn from(cause: PieceRefusal) -> PutRefusal {
        PutRefusal::NotAdmitted(cause)
    }
}

impl Refusal for PieceRefusal {
    ghost number_of = { number_of_piece };

    ghost listed = { piece_listed };

    fn number(&self) -> u8 {
        match self {
            PieceRefusal::Finish => 2,
            PieceRefusal::First => 3,
            PieceRefusal::Second => 4,
        }
    }
}

impl Refusal for PutRefusal {
    ghost number_of = { number_of_put };

    ghost listed = { put_listed };

    fn number(&self) -> u8 {
        match self {
            PutRefusal::NoNumber => 1,
            PutRefusal::NotAdmitted(refusal) => refusal.number(),
            PutRefusal::SeasonFull => 5,
            PutRefusal::ListFull => 6,
        }
    }
}

impl Refusal for MakeRefusal {
    ghost number_of = { number_of_make };

    ghost listed = { make_listed };

    fn number(&self) -> u8 {
        match self {
            MakeRefusal::Capacity => 7,
            MakeRefusal::ClassNumber => 8,
            MakeRefusal::PieceLimit => 9,
            MakeRefusal::Allowance => 10,
            MakeRefusal::Finishes => 11,
        }
    }
}

impl Refusal for WriteRefusal {
    ghost number_of = { number_of_write };

    ghost listed = { write_listed };

    fn number(&self) -> u8 {
        12
    }
}

impl Refusal for ReadRefusal {
    ghost number_of = { number_of_read };

    ghost listed = { read_listed };

    fn number(&self) -> u8 {
        match self {
            ReadRefusal::Ended { .. } => 13,
            ReadRefusal::NoField { .. } => 14,
            ReadRefusal::Zero { .. } => 15,
        }
    }
}
