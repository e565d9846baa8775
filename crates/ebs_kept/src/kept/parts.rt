// A store that is made of its parts, and its parts.
use super::Kept;
use ebs_catalog::Catalog;
use ebs_holds::Holdings;
use ebs_model::Moment;
use std::alloc::Global;

impl Kept {
    ghost use Rattle.std.specs.Prelude.{◌≡◌, ◌≤◌};
    ghost use Rattle.ebs_kept.specs.inner.Shown.{IsSound};
    ghost use Rattle.ebs_catalog.specs.Held.{rows_in};
    ghost use Rattle.ebs_kept.specs.inner.Parts.{Shows, machine_by};

    /// The store that has these rows and arrays, for one that is opened from a checkpoint. What time has ended is kept until
    /// it is given up.
    pub fn of(
        alloc: Global,
        secret: [u8; 32],
        clock: Moment,
        changes: u64,
        stamps: u64,
        catalog: Catalog,
        holdings: Holdings,
    ) -> Self
        requires reached { catalog.latest ≤ clock.second }
        requires sound { IsSound (machine_by alloc secret clock changes stamps catalog holdings) }
        ensures machine { result.machine ≡ machine_by alloc secret clock changes stamps catalog holdings }
        ensures catalog { result.catalog ≡ catalog }
        ensures holding { result.holding ≡ holdings }
    {
        Kept {
            alloc,
            secret,
            clock,
            changes,
            stamps,
            catalog,
            holdings,
            is_settled: false,
        }
    }

    /// The machine is what the rows and the arrays show at its clock.
    pub fn shows_parts(&self)
        ensures { Shows self.now.machine (rows_in self.now.catalog) self.now.holding }
    {
        let _ = &self.clock;
    }

    /// The rows, with what is ready for one.
    pub fn catalog(&self) -> &Catalog
        ensures { result.now ≡ self.now.catalog }
    {
        &self.catalog
    }

    /// The arrays of snapshots and volumes.
    pub fn holdings(&self) -> &Holdings
        ensures { result.now ≡ self.now.holding }
    {
        &self.holdings
    }
}
