// What the calls of a lineage leave of a backlog.
ghost use Rattle.ebs_collect.specs.Laws.{ClosingKeepsBlocks, DroppingLeavesItsLine, FreezingCovers, MakingCovers, MakingKeepsBlocks, NothingIsCovered, PuttingKeepsCounted, PuttingLeavesWhatItHides, ReopeningCovers, RoomCovers, RoomKeepsBlocks, SameBlocksStayCounted, SealingCovers};

use ebs_lineage::entries_count;

/// Where a hold is given up, all is covered but what stands on the node's line.
pub fn dropping_leaves_its_line()
    ensures { DroppingLeavesItsLine }
{}

/// Where a block is put, all is covered but the blocks of the node that has the one that it hides.
pub fn putting_leaves_what_it_hides()
    ensures { PuttingLeavesWhatItHides }
{}

/// The other calls leave all covered.
pub fn others_cover()
    ensures none { NothingIsCovered }
    ensures made { MakingCovers }
    ensures sealed { SealingCovers }
    ensures frozen { FreezingCovers }
    ensures reopened { ReopeningCovers }
    ensures room { RoomCovers }
{}

/// Where blocks stay they are counted as before: as nodes are made, closed, and kept ready.
pub fn blocks_stay()
    ensures counted { SameBlocksStayCounted }
    ensures closed { ClosingKeepsBlocks }
    ensures room { RoomKeepsBlocks }
    ensures made { MakingKeepsBlocks }
{}

/// A put is counted, where the block that it replaces is given up.
pub fn putting_counts()
    ensures { PuttingKeepsCounted }
{
    entries_count();
}
