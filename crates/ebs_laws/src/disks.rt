// The blocks of a volume, and the snapshots that are taken of it.
ghost use Rattle.ebs_laws.specs.DiskLaws.{WriteLeavesBytes, OtherCallKeepsDisk, OtherCallKeepsBlank, ReadAnswersBytes, BlankReadsZeros, VolumeHasBytes, NewVolumeIsBlank, SnapshotHasBytes, SnapshotIsAsAsked, OwnerTakesSnapshot, SnapshotKeepsItsMoment, WriteIsAsAsked, OwnerWrites, OwnerReads, ReadIsInRange, VolumesLeaveSnapshots, VolumeDeletionLeavesOthers, SnapshotDeletionLeavesVolumes};

/// What was written last in a volume is what is read of it, and zeros where nothing was; a volume begins with what its origin has at that
/// moment, or with nothing; and a snapshot of it has what stands in it then.
pub fn written_is_read()
    ensures write { WriteLeavesBytes }
    ensures keeps { OtherCallKeepsDisk }
    ensures keeps_blank { OtherCallKeepsBlank }
    ensures read { ReadAnswersBytes }
    ensures zeros { BlankReadsZeros }
    ensures origin { VolumeHasBytes }
    ensures nothing { NewVolumeIsBlank }
    ensures snapshot { SnapshotHasBytes }
{}

/// An accepted CreateSnapshot makes one snapshot, of the caller's own volume, with the account's next number: completed at once, with the
/// volume's size, line and blocks of that moment and the asked description and tags, not shared, under no lock, in the standard tier. All
/// else is what time leaves of it. The account had fewer than 10000 snapshots. Of its own volume, with that room, it is accepted. And the
/// snapshot keeps the blocks of its moment whatever is called later.
pub fn snapshot_is_of_its_moment()
    ensures taken { SnapshotIsAsAsked }
    ensures accepted { OwnerTakesSnapshot }
    ensures stays { SnapshotKeepsItsMoment }
{}

/// An accepted WriteVolumeBlock changes one block of one volume of the caller's own, with the next stamp, and nothing else but by time. A
/// whole block with its SHA-256 is accepted of the owner at each index within the volume's size, and so is a read, which is refused at any other.
pub fn write_is_as_asked()
    ensures writes { WriteIsAsAsked }
    ensures accepted { OwnerWrites }
    ensures reads { OwnerReads }
    ensures in_range { ReadIsInRange }
{}

/// A call on a volume, other than a snapshot of it, changes no snapshot's row nor blocks but by time.
pub fn nothing_else_moves_a_snapshot()
    ensures { VolumesLeaveSnapshots }
{}

/// The deletion of a volume changes no other volume nor its blocks, and that of a snapshot none at all.
pub fn volume_deletion_leaves_others()
    ensures volume { VolumeDeletionLeavesOthers }
    ensures snapshot { SnapshotDeletionLeavesVolumes }
{}
