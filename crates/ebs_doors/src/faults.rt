// The count that shows failures.
ghost use Rattle.std.specs.Prelude.{◌≡◌, ◌+◌, ◌-◌, ◌^◌, ◌≤◌, min};

/// Raises a count of faults, which stands still at its type's end.
pub fn raise(faults: &mut u64)
    ensures later { faults.old ≤ faults.new }
    ensures rose { faults.new ≡ min (faults.old + 1) (2 ^ 64 - 1) }
{
    *faults = faults.saturating_add(1);
}
