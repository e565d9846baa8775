// The tier of a snapshot: what an archive and a restore make of it, and what is read by it.
ghost use Rattle.ebs_laws.specs.TierLaws.{ArchiveIsAsAsked, RestoreIsAsAsked, LaterReadIsTheBlock, LaterReaderGetsBlock, LaterListIsOfTheBlocks, ArchivedBlockIsRefused, ArchivedListIsRefused, ArchivedFirstIsRefused, ArchivedSecondIsRefused, ArchivedIsHidden};

/// After an accepted ArchiveSnapshot a snapshot of the standard tier is archived. After an accepted RestoreTier one that wasn't of that
/// tier is of it, or is restored until so many days from then. All else of the row, its blocks, and every other row and account are as
/// time left them.
pub fn tier_is_as_asked()
    ensures archive { ArchiveIsAsAsked }
    ensures restore { RestoreIsAsAsked }
{}

/// What could be read of a completed snapshot is read again after any calls, archives and restores among them: each block that is read
/// later is the one that was there, each who may read the snapshot then reads it, and a list has the indexes of them all.
pub fn archived_reads_again()
    ensures block { LaterReadIsTheBlock }
    ensures reader { LaterReaderGetsBlock }
    ensures list { LaterListIsOfTheBlocks }
{}

/// Of a snapshot in the archive, or after the end of its restore, no block, list or comparison is answered: to its owner it is
/// archived, and to anybody else each call that names it, but for a start or a creation that repeats another, is refused as of what
/// isn't there.
pub fn archived_is_not_read()
    ensures block { ArchivedBlockIsRefused }
    ensures list { ArchivedListIsRefused }
    ensures first { ArchivedFirstIsRefused }
    ensures second { ArchivedSecondIsRefused }
    ensures others { ArchivedIsHidden }
{}
