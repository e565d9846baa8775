// Failures, and the count that shows them.
ghost use Rattle.std.specs.Prelude.{◌≡◌, ◌+◌, ◌-◌, ◌^◌, ◌≤◌, ◌↔◌, IsTrue, min};
ghost use Rattle.ebs_world.specs.inner.Fails.{Counted, IsListed, plan};

/// The object failed, which its count of faults shows.
#[derive(Clone, Copy, Debug, PartialEq, Eq)]
pub struct Failed;

/// Raises a count of faults, which stands still at its type's end.
pub fn raise(faults: &mut u64) -> Failed
    ensures later { faults.old ≤ faults.new }
    ensures rose { faults.new ≡ min (faults.old + 1) (2 ^ 64 - 1) }
{
    *faults = faults.saturating_add(1);
    Failed
}

/// The calls of an object in memory that fail, by their numbers from 0, and how many calls there were.
#[derive(Drop)]
pub struct FailList {
    numbers: Vec<u64>,
    calls: u64,
}

impl FailList {
    pub fn new(numbers: Vec<u64>) -> Self
        ensures { plan result ≡ record { fail = numbers.items; calls = 0 } }
    {
        FailList { numbers, calls: 0 }
    }

    /// Counts a call, and says whether it fails.
    pub fn count_call(&mut self) -> bool
        ensures listed { IsTrue result ↔ IsListed (plan self.old) }
        ensures counted { Counted (plan self.old) (plan self.new) }
    {
        let call = self.calls;
        self.calls = call.saturating_add(1);
        self.numbers.contains(&call)
    }
}
