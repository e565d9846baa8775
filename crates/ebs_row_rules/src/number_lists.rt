// Lists of numbers, taken as sets.
ghost use Rattle.std.specs.Prelude.{ℕ, ◌≡◌, nat_lt, IfOk};
ghost use Rattle.std.specs.List.{list_all};
ghost use Rattle.std.specs.FinMap as maps;
ghost use Rattle.ebs_row_rules.specs.Numbers as numbers;

use ebs_tables::Stamped;
use std::alloc::{AllocError, Global};

/// The numbers of the list.
fn set_of(alloc: Global, list: &[u64]) -> Result<Stamped<()>, AllocError>
    ensures { IfOk result (λ set. (n : ℕ) → maps.contains_key set n ≡ numbers.has list.now n) }
{
    let mut set = Stamped::new(alloc);
    for number in list {
        set.insert(*number, ())?;
    }
    Ok(set)
}

fn all_in(list: &[u64], set: &Stamped<()>) -> bool
    ensures { result ≡ list_all (maps.contains_key set.now) list.now }
{
    list.iter().all(|number| set.contains(*number))
}

/// Whether each of either list stands in the other.
pub(crate) fn are_same(alloc: Global, some: &[u64], others: &[u64]) -> Result<bool, AllocError>
    ensures { IfOk result (λ are. are ≡ numbers.are_same some.now others.now) }
{
    let of_some = set_of(alloc, some)?;
    let of_others = set_of(alloc, others)?;
    Ok(all_in(some, &of_others) && all_in(others, &of_some))
}

/// Whether none stands twice.
pub(crate) fn are_distinct(alloc: Global, list: &[u64]) -> Result<bool, AllocError>
    ensures { IfOk result (λ are. are ≡ numbers.are_distinct list.now) }
{
    let mut seen = Stamped::new(alloc);
    for number in list {
        if seen.insert(*number, ())?.is_some() {
            return Ok(false);
        }
    }
    Ok(true)
}

pub(crate) fn are_below(list: &[u64], end: u64) -> bool
    ensures { result ≡ list_all (λ n. nat_lt n end) list.now }
{
    list.iter().all(|number| *number < end)
}
