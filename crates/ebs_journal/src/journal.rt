// A journal that was made or opened.
ghost use Rattle.std.specs.Prelude.{true, ◌≡◌, ◌+◌, ◌*◌, ◌≤◌, ◌^◌, length, IfOk, false, ◌&&◌};
ghost use Rattle.ebs_journal.specs.inner.Areas.{is_journal};

use ebs_world::Area;
use std::alloc::{AllocError, Global};

/// A journal on a disk: where its next record goes, and the room in which that is spelled.
#[derive(Drop)]
pub struct Journal {
    pub(crate) area: Area,
    pub(crate) epoch: u64,
    pub(crate) end: u64,
    pub(crate) since_checkpoint: u64,
    pub(crate) clean: bool,
    pub(crate) shut: bool,
    pub(crate) turning: bool,
    pub(crate) buffer: Vec<u8>,
    ghost in_journal: { is_journal area ≡ true },
    ghost room: { length buffer.items ≡ 1048581 },
    ghost far: { 30 + 6 * since_checkpoint ≤ end },
    ghost within: { end ≤ 2 ^ 62 },
    ghost sure: { clean && turning ≡ false },
}

/// Room for a record's length, its bytes and the gate behind it.
pub(crate) fn new_buffer(alloc: Global) -> Result<Vec<u8>, AllocError>
    ensures { IfOk result (λ buffer. length buffer.items ≡ 1048581) }
{
    vec![in alloc; 0u8; 1048581]
}

impl Journal {
    ghost use Rattle.ebs_journal.specs.inner.Line.{line};

    /// Whether no gate is in doubt. One is once an append or a rotation failed at its gate, until a mend.
    pub fn is_clean(&self) -> bool
        ensures { result ≡ (line self.now).clean }
    {
        self.clean
    }

    /// The number of records behind the checkpoint.
    pub fn since_checkpoint(&self) -> u64
        ensures { result ≡ (line self.now).since_checkpoint }
    {
        self.since_checkpoint
    }

    /// The epoch of the area that counts.
    pub fn epoch(&self) -> u64
        ensures { result ≡ (line self.now).epoch }
    {
        self.epoch
    }

    /// The byte behind the last gate.
    pub fn end(&self) -> u64
        ensures { result ≡ (line self.now).end }
    {
        self.end
    }
}
