// The laws of slots.
ghost use Rattle.ebs_slots.specs.inner.Laws.{AbandoningKeepsBlocks, AdoptingKeepsBlocks, ForgettingKeepsBlocks, MarkIsOffSlots, OneBlockStands, OtherSlotStays, PlacingKeepsBlocks, ReleasingKeepsBlocks, SlotsAreApart, StagingKeepsBlocks};

/// No byte of an area is in two slots, so a write in one leaves the block in another; and none has the mark.
pub fn slots_apart()
    ensures apart { SlotsAreApart }
    ensures stays { OtherSlotStays }
    ensures mark { MarkIsOffSlots }
{}

/// One block stands in a slot.
pub fn one_block()
    ensures { OneBlockStands }
{}

/// What lies in a slot under a key or a lease lies there after any later call, until the key or the lease is given up.
pub fn blocks_stay()
    ensures staged { StagingKeepsBlocks }
    ensures adopted { AdoptingKeepsBlocks }
    ensures abandoned { AbandoningKeepsBlocks }
    ensures placed { PlacingKeepsBlocks }
    ensures forgotten { ForgettingKeepsBlocks }
    ensures released { ReleasingKeepsBlocks }
{}
