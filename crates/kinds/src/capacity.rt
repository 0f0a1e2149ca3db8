// A capacity or a width.
ghost use Rattle.std.specs.Prelude.{◌≡◌, ◌≤◌, false, MatchResult};
ghost use Rattle.refusals.specs.declared.MakeRefusal.TheVariants.{Capacity as NoCapacity};
ghost use Rattle.kinds.specs.Kind.{between};

use refusals::MakeRefusal;

// From 1 to 1,000,000.
#[derive(Clone, Copy, PartialEq, Eq, Debug)]
pub struct Capacity {
    pub value: u32,
    ghost some: { 1 ≤ value },
    ghost most: { value ≤ 1000000 },
}

impl TryFrom<u32> for Capacity {
    type Error = MakeRefusal;

    ghost try_from_gives = { λ n r. MatchResult r (λ c. c.value ≡ n) (λ e. (between 1 1000000 n ≡ false) × (e ≡ NoCapacity)) };

    fn try_from(value: u32) -> Result<Capacity, MakeRefusal> {
        if (1..=1_000_000).contains(&value) {
            Ok(Capacity { value })
        } else {
            Err(MakeRefusal::Capacity)
        }
    }
}
