// The figures of a class number.
ghost use Rattle.std.specs.Prelude.{◌≡◌, ℕ, ◌-◌, ◌*◌, ◌%◌, ◌<◌, ◌≤◌, false, MatchResult, slice_index};
ghost use Rattle.refusals.specs.declared.MakeRefusal.TheVariants.{ClassNumber as NoClassNumber};
ghost use Rattle.kinds.specs.Kind.{between};
ghost use Rattle.kinds.specs.Figures.{multiple, unit_factor, ceiling_factor};

use refusals::MakeRefusal;

// The least common multiple of 1 to k - 1.
const MULTIPLES: [u64; 11] = [1, 2, 6, 12, 60, 60, 420, 840, 2520, 2520, 27720];

// What the ceiling is for each unit of capacity. One table of pairs would be no plainer: that the first
// holds least common multiples is proved, and this one is what the rules list.
const CEILING_FACTORS: [u64; 11] = [2, 7, 31, 82, 510, 610, 4980, 11380, 38400, 42660, 516120];

// From 2 to 12: so many harmonic classes. One type for this and a capacity, with range and cause as its
// parameters, would be no plainer than the two tests.
#[derive(Clone, Copy, PartialEq, Eq, Debug)]
pub struct ClassNumber {
    pub value: u8,
    ghost many: { 2 ≤ value },
    ghost few: { value ≤ 12 },
}

impl TryFrom<u32> for ClassNumber {
    type Error = MakeRefusal;

    ghost try_from_gives = { λ n r. MatchResult r (λ k. k.value ≡ n) (λ e. (between 2 12 n ≡ false) × (e ≡ NoClassNumber)) };

    fn try_from(value: u32) -> Result<ClassNumber, MakeRefusal> {
        if (2..=12).contains(&value) {
            Ok(ClassNumber { value: value as u8 })
        } else {
            Err(MakeRefusal::ClassNumber)
        }
    }
}

impl ClassNumber {
    // What a table has for k, whose numbers are for k from 2 on.
    fn listed(self, table: &[u64; 11]) -> u64
        ensures { result ≡ slice_index table.now (self.value - 2) }
    {
        table[(self.value - 2) as usize]
    }

    // L: a multiple of each of 1 to k - 1, and the least.
    #[tactic(auto, using(crate::specs::Factors::multiple_listed, crate::specs::Factors::multiple_common, crate::specs::Factors::multiple_least))]
    pub(crate) fn multiple(self) -> u64
        ensures value { result ≡ multiple self.value }
        ensures common { (j : ℕ) → 1 ≤ j → j < self.value → result % j ≡ 0 }
        ensures least { (n : ℕ) → 1 ≤ n → ((j : ℕ) → 1 ≤ j → j < self.value → n % j ≡ 0) → result ≤ n }
        ensures most { result ≤ 27720 }
    {
        self.listed(&MULTIPLES)
    }

    // u: what the unit is for each unit of capacity.
    pub(crate) fn unit_factor(self) -> u64
        ensures value { result ≡ unit_factor self.value }
        ensures most { result ≤ 304920 }
    {
        (self.value - 1) as u64 * self.multiple()
    }

    // What a piece of the last class weighs for each unit of its length.
    pub(crate) fn last_factor(self) -> u64
        ensures value { result ≡ self.value * multiple self.value }
        ensures most { result ≤ 332640 }
    {
        self.value as u64 * self.multiple()
    }

    // p: what the ceiling is for each unit of capacity.
    pub(crate) fn ceiling_factor(self) -> u64
        ensures value { result ≡ ceiling_factor self.value }
        ensures most { result ≤ 516120 }
    {
        self.listed(&CEILING_FACTORS)
    }
}
