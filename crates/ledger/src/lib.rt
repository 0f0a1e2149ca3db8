// The plain values of a packer: the bank of open containers, the ledger, answers and reports. The
// rules by which they change, and the promise that holds of them, are in specs/.
#![tactic(auto)]

ghost use Rattle.std.specs.Prelude.{◌≡◌, ◌-◌, if◌then◌else◌, slice_index_or, slice_set};
ghost use Rattle.kinds.specs.Kind.{between};
ghost use Rattle.ledger.specs.Rules.{nothing, new_bank};

use archive::line::ClosingLine;

// What stands open in one class; the count is 0 where nothing does. An Option of a slot would be no
// plainer: a fact would have to forbid Some of a slot with no pieces.
#[derive(Clone, Copy, PartialEq, Eq, Debug, Default)]
pub struct Slot {
    pub container: u32,
    pub count: u32,
    pub level: u32,
    pub weight: u64,
}

// At most one open container in each class, and never more than 104 classes. An array, since the
// packer has no heap.
#[derive(Drop)]
pub struct Bank {
    pub slots: [Slot; 104],
}

impl Bank {
    pub fn new() -> Bank
        ensures { result ≡ new_bank }
    {
        Bank {
            slots: [Slot::default(); 104],
        }
    }

    // What stands open in a class. Nothing does in a class that no bank has.
    pub fn at(&self, class: u8) -> Slot
        ensures { result ≡ (if between 1 104 class then slice_index_or self.now.slots (class - 1) nothing else nothing) }
    {
        if (1..=104).contains(&class) {
            self.slots[(class - 1) as usize]
        } else {
            Slot::default()
        }
    }

    // Another record for a class. No slot changes for a class that no bank has.
    pub fn replace(&mut self, class: u8, slot: Slot)
        ensures { self.new.slots ≡ (if between 1 104 class then slice_set self.old.slots (class - 1) slot else self.old.slots) }
    {
        if (1..=104).contains(&class) {
            self.slots[(class - 1) as usize] = slot;
        }
    }
}

// All that a packer keeps of its season.
#[derive(Drop)]
pub struct Ledger {
    pub bank: Bank,
    // pieces accepted
    pub accepted: u32,
    // containers opened
    pub opened: u32,
    // what they cost
    pub used: u64,
    // what all accepted pieces weigh
    pub weight: u64,
}

// The answer to an accepted put.
#[derive(Clone, Copy, PartialEq, Eq, Debug)]
pub struct Placing {
    pub container: u32,
    pub class: u8,
    // what closed since the piece did not fit
    pub before: Option<ClosingLine>,
    // what closed since the piece filled it
    pub after: Option<ClosingLine>,
}

// What a season came to so far.
#[derive(Clone, Copy, PartialEq, Eq, Debug)]
pub struct Report {
    // pieces accepted
    pub accepted: u32,
    // containers opened, and what they cost
    pub opened: u32,
    pub used: u64,
    // what the containers cost that are open now
    pub unclosed: u64,
    // what all accepted pieces weigh
    pub weight: u64,
    // what no plan can stay below
    pub floor: u64,
}
