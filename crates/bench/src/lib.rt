// Seasons of drawn pieces, as a static library for the benchmark: bench/run.
#![tactic(auto)]

ghost use Rattle.std.specs.Prelude.{◌≡◌};
ghost use Rattle.kinds.specs.Bars.{bars};
ghost use Rattle.kinds.specs.Totes.{totes};
ghost use Rattle.kinds.specs.Strips.{strips};
ghost use Rattle.bench.specs.Packed.{Packed};

use archive::line::{ClosingLine, PlaceLine};
use draws::Generator;
use kinds::Kind;
use kinds::bars::Bars;
use kinds::capacity::Capacity;
use kinds::figures::ClassNumber;
use kinds::piece::Piece;
use kinds::strips::Strips;
use kinds::totes::Totes;
use packer::Packer;
use packer::lines::Lines;

// A piece up to 1000 long; its height is 0, or up to `heights`.
fn drawn_piece(draw: &mut Generator, number: u32, heights: u32) -> Piece {
    let first = draw.below(1000) + 1;
    let height = draw.below(heights as u64);
    let second = if heights == 0 { 0 } else { height + 1 };
    Piece {
        number,
        first,
        second,
        finish: 0,
    }
}

// Both lists of one put, added up, so that no line is left out. Loops, since two folds take 10 to 26
// instructions more for each put.
fn added(sum: u64, places: &[PlaceLine], closings: &[ClosingLine]) -> u64 {
    let mut all = sum;
    for place in places {
        all = all.wrapping_mul(31).wrapping_add(place.container as u64);
    }
    for closing in closings {
        all = all.wrapping_mul(31).wrapping_add(closing.floor);
    }
    all
}

// Puts so many drawn pieces, and tells the used cost. What is added to `sum` is left open.
fn pack<K: Kind + Drop>(kind: K, heights: u32, pieces: u32, sum: &mut u64) -> u64
    ensures { Packed (K.meaning kind) result }
{
    let mut draw = Generator::seeded(0);
    let mut packer = Packer::new(kind);
    for i in 0..pieces {
        let piece = drawn_piece(&mut draw, i / 2 + 1, heights);
        let mut place_memory = [PlaceLine::default(); 1];
        let mut closing_memory = [ClosingLine::default(); 2];
        let mut places = Lines::new(&mut place_memory);
        let mut closings = Lines::new(&mut closing_memory);
        // what a refused put adds is nothing, and the lists show the rest
        let _ = packer.put(piece, &mut places, &mut closings);
        *sum = added(*sum, places.view(), closings.view());
    }
    packer.report().used
}

fn thousand() -> Bars
    ensures { (result.capacity.value ≡ 1000) × (result.k.value ≡ 12) }
{
    Bars {
        capacity: Capacity { value: 1000 },
        k: ClassNumber { value: 12 },
    }
}

// The functions that C calls; how many pieces, and the sum, are what C passes.

// Over bars of 1000 in twelve classes.
#[unsafe(no_mangle)]
pub extern "C" fn packed_bars(pieces: u32, sum: &mut u64) -> u64
    ensures { Packed (bars 1000 12) result }
{
    pack(thousand(), 0, pieces, sum)
}

// Over totes of 1000 in twelve classes, at most fifty pieces each.
#[unsafe(no_mangle)]
pub extern "C" fn packed_totes(pieces: u32, sum: &mut u64) -> u64
    ensures { Packed (totes 1000 12 50) result }
{
    let bars = thousand();
    pack(Totes { bars, limit: 50 }, 0, pieces, sum)
}

// Over strips of 1000, heights up to 64.
#[unsafe(no_mangle)]
pub extern "C" fn packed_strips(pieces: u32, sum: &mut u64) -> u64
    ensures { Packed (strips 1000) result }
{
    let width = Capacity { value: 1000 };
    pack(Strips { width }, 64, pieces, sum)
}
