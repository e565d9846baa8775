// Where slots begin, and how many there are.
ghost use Rattle.std.specs.Prelude.{◌≡◌, ◌^◌, ◌↔◌, IsTrue};
ghost use Rattle.ebs_slots.specs.Slots as slots;
ghost use Rattle.ebs_slots.specs.inner.Slots as inner_slots;

use ebs_world::Area;

// Slots of an area whose first one begins at byte 0.
const MOST_SLOTS: u64 = 1 << 43;

/// The byte at which a slot of the area begins: in the archive one block later, since its byte 0 is the mark.
pub(crate) fn start_of(area: Area, slot: u64) -> u64
    requires { inner_slots.IsSlot area slot }
    ensures { result ≡ slots.start_of area slot }
{
    match area {
        Area::Archive => 524288 * (slot + 1),
        Area::Journal0 | Area::Journal1 | Area::Blocks => 524288 * slot,
    }
}

/// How many slots the area has: the next one would begin at byte 2^62.
fn slots_of(area: Area) -> u64
    ensures { slots.start_of area result ≡ 2 ^ 62 }
{
    match area {
        Area::Archive => MOST_SLOTS - 1,
        Area::Journal0 | Area::Journal1 | Area::Blocks => MOST_SLOTS,
    }
}

/// Whether a number is that of a slot of the area.
pub(crate) fn is_slot(area: Area, number: u64) -> bool
    ensures { IsTrue result ↔ inner_slots.IsSlot area number }
{
    number < slots_of(area)
}
