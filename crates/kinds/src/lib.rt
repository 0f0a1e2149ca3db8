// Kinds of container: what each tells of a piece, and the laws that hold of all it tells.
#![tactic(auto)]

ghost use Rattle.std.specs.Prelude.{◌≡◌, ℕ};
ghost use Rattle.kinds.specs.Kind.{Meaning, Lawful};

pub mod bars;
pub mod capacity;
pub mod figures;
pub mod laid;
pub mod piece;
pub mod strips;
pub mod totes;

use piece::Piece;
use refusals::PieceRefusal;

// A lawful kind of container. Of a piece that is not admitted, and of a class that it does not
// have, a kind tells 0 or no. These calls answer for every piece and class, and the laws say 0 there: an
// Option would be no plainer, as None would be a second word for it.
pub trait Kind {
    // The kind code: 1 for bars, 2 for totes, 3 for strips. A number and no enum, since any crate may
    // add a kind, and no list here could name it.
    const CODE: u8;

    ghost CODE: { ℕ };

    // The same as a call.
    fn kind_code() -> u8
        ensures { result ≡ CODE }
    {
        Self::CODE
    }

    // all that the kind tells, as one value
    ghost meaning: { Self → Meaning };

    // Why the piece is not admitted, or None where it is. The question is why, so a Result that is Ok of
    // nothing would be no plainer.
    fn refusal(&self, piece: &Piece) -> Option<PieceRefusal>
        ensures { result ≡ (meaning self.now).refusal piece.now };

    // How many classes there are. They are numbered from 1.
    fn classes(&self) -> u8
        ensures { result ≡ (meaning self.now).classes };

    fn class(&self, piece: &Piece) -> u8
        ensures { result ≡ (meaning self.now).class piece.now };

    // What a container of the class costs.
    fn cost(&self, class: u8) -> u64
        ensures { result ≡ (meaning self.now).cost class };

    // What a container of the class costs that is left open.
    fn standing(&self, class: u8) -> u64
        ensures { result ≡ (meaning self.now).standing class };

    // What a container that closes weighs at least, for each unit of its cost.
    fn unit(&self) -> u64
        ensures { result ≡ (meaning self.now).unit };

    // What an allowed container weighs at most, for each unit of its cost.
    fn ceiling(&self) -> u64
        ensures { result ≡ (meaning self.now).ceiling };

    fn weight(&self, piece: &Piece) -> u64
        ensures { result ≡ (meaning self.now).weight piece.now };

    // What the piece adds to the level of its container.
    fn load(&self, piece: &Piece) -> u32
        ensures { result ≡ (meaning self.now).load piece.now };

    // Whether a container of the class takes the piece, at this count and level. The two come apart: a
    // struct of them would be no plainer, as a slot has two numbers more and each call would make it.
    fn fits(&self, class: u8, count: u32, level: u32, piece: &Piece) -> bool
        ensures { result ≡ (meaning self.now).fits class count level piece.now };

    // Whether a container of the class is full, at this count and level.
    fn full(&self, class: u8, count: u32, level: u32) -> bool
        ensures { result ≡ (meaning self.now).full class count level };

    ghost coded: { (k : Self) → (meaning k).code ≡ CODE };

    ghost lawful: { (k : Self) → Lawful (meaning k) };
}
