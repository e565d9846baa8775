// To whom a snapshot is there.
ghost use Rattle.ebs_laws.specs.AccessLaws.{BlockIsForReaders, ListIsForReaders, ComparisonIsForReaders, ParentIsForReaders, OriginIsForReaders, PutIsForOwner, CompleteIsForOwner, SharingIsForOwner, DeletionIsForOwner, LockIsForOwner, UnlockIsForOwner, ArchiveIsForOwner, RestoreIsForOwner, ReaderGetsBlock, ReaderGetsList, ReaderGetsComparison, OthersChangeNothing, OthersChangeNoAccount, OthersChangeNoToken, OthersChangeNoVolume, OthersChangeNoDisk, OthersChangeNoRule, OthersChangeNoPolicy, VolumeIsForOwner};

/// A block, a list or a comparison is answered, and a parent or a volume's origin taken, only for the owner of each snapshot, for one that it is
/// shared with, or of a public one; and only where it is completed, outside the bin and in a tier that is read then.
pub fn readers_alone_read()
    ensures block { BlockIsForReaders }
    ensures list { ListIsForReaders }
    ensures comparison { ComparisonIsForReaders }
    ensures parent { ParentIsForReaders }
    ensures origin { OriginIsForReaders }
{}

/// And it is answered to each of these.
pub fn readers_are_answered()
    ensures block { ReaderGetsBlock }
    ensures list { ReaderGetsList }
    ensures comparison { ReaderGetsComparison }
{}

/// A block is written, and an upload ended, only by the owner, before the minutes of its timeout are over; and only the owner shares,
/// locks, unlocks, archives and restores a snapshot, once it is completed. Only the owner deletes it, where no upload is open and no
/// lock lasts. Of a volume only its owner takes a snapshot, and only the owner writes, reads and deletes it and is shown its row.
pub fn owner_alone_writes()
    ensures put { PutIsForOwner }
    ensures complete { CompleteIsForOwner }
    ensures sharing { SharingIsForOwner }
    ensures deletion { DeletionIsForOwner }
    ensures lock { LockIsForOwner }
    ensures unlock { UnlockIsForOwner }
    ensures archive { ArchiveIsForOwner }
    ensures restore { RestoreIsForOwner }
    ensures volume { VolumeIsForOwner }
{}

/// No row and no block changes by a call of another than its owner, but by time; nor do an account's counters and its client tokens by
/// a call of another, nor its volumes and their blocks, nor its rules, nor its policies.
pub fn others_change_nothing()
    ensures rows { OthersChangeNothing }
    ensures accounts { OthersChangeNoAccount }
    ensures tokens { OthersChangeNoToken }
    ensures volumes { OthersChangeNoVolume }
    ensures disks { OthersChangeNoDisk }
    ensures rules { OthersChangeNoRule }
    ensures policies { OthersChangeNoPolicy }
{}
