// Which slot is handed out.
ghost use Rattle.std.specs.Prelude.{◌≡◌, ◌<◌, ◌≤◌, ◌⊎◌, ◌↔◌, ℕ, [], Some, IsTrue, IfSome, IfNone};
ghost use Rattle.ebs_slots.specs.inner.Freed.{AreListed, Has, IsChosen, IsUnused};

use crate::spare_map::SpareMap;

/// A slot, and a number below which each unused slot but this one is on the list of those that were given back.
#[derive(Clone, Copy, Debug)]
pub(crate) struct Chosen {
    pub(crate) slot: u64,
    pub(crate) low: u64,
}

pub(crate) fn is_unused(owners: &SpareMap<u64>, leases: &SpareMap<[u8; 32]>, slot: u64) -> bool
    ensures { IsTrue result ↔ IsUnused owners.now.entries leases.now.entries slot }
{
    !owners.contains(slot) && !leases.contains(slot)
}

// The latest unused slot of the list. What stands behind it is taken off too.
fn pop_unused(
    freed: &mut Vec<u64>,
    owners: &SpareMap<u64>,
    leases: &SpareMap<[u8; 32]>,
    top: u64,
) -> Option<u64>
    ensures unused { IfSome result (λ slot. (slot < top) × IsUnused owners.now.entries leases.now.entries slot) }
    ensures rest { (n : ℕ) → n < top → IsUnused owners.now.entries leases.now.entries n → Has freed.old.items n → Has freed.new.items n ⊎ (result ≡ Some n) }
    ensures none { IfNone result (freed.new.items ≡ []) }
{
    while let Some(slot) = freed.pop() {
        if slot < top && is_unused(owners, leases, slot) {
            return Some(slot);
        }
    }
    None
}

// The first unused slot from a number on, or the top.
fn first_unused(owners: &SpareMap<u64>, leases: &SpareMap<[u8; 32]>, low: u64, top: u64) -> u64
    requires { low ≤ top }
    ensures from { low ≤ result }
    ensures below { result ≤ top }
    ensures used { (n : ℕ) → low ≤ n → n < result → IsUnused owners.now.entries leases.now.entries n → ⊥ }
    ensures unused { result < top → IsUnused owners.now.entries leases.now.entries result }
{
    let mut at = low;
    while at < top {
        if is_unused(owners, leases, at) {
            return at;
        }
        at += 1;
    }
    at
}

/// Chooses an unused slot below the top, or the top where none is unused.
pub(crate) fn choose(
    freed: &mut Vec<u64>,
    owners: &SpareMap<u64>,
    leases: &SpareMap<[u8; 32]>,
    low: u64,
    top: u64,
) -> Chosen
    requires below { low ≤ top }
    requires listed { AreListed owners.now.entries leases.now.entries freed.old.items low }
    ensures { IsChosen owners.now.entries leases.now.entries top freed.new.items result.slot result.low }
{
    match pop_unused(freed, owners, leases, top) {
        Some(slot) => Chosen { slot, low },
        None => {
            let slot = first_unused(owners, leases, low, top);
            Chosen { slot, low: slot }
        }
    }
}

/// Puts a slot on the list, or where there is no room for it lowers the number below which all unused slots are there.
pub(crate) fn give_back(freed: &mut Vec<u64>, low: u64, slot: u64) -> u64
    ensures stay { (n : ℕ) → Has freed.old.items n → Has freed.new.items n }
    ensures here { slot < result → Has freed.new.items slot }
    ensures below { result ≤ low }
{
    match freed.push(slot) {
        Ok(()) => low,
        Err(_) => low.min(slot),
    }
}
