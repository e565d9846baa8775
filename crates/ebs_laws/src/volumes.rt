// What a volume's row is, to whom it is there, and what its client token is worth.
ghost use Rattle.ebs_laws.specs.VolumeLaws.{VolumeIsAsAsked, OwnerIsShown, OwnerTakesOut, VolumeIsUnknown, ShownVolumeIsTheRow, DeletedVolumeIsOwn, CreationActsOnce, SizeMadeIsTheSame, OtherCreationConflicts, StartConflictsWithVolume, CreationConflictsWithStart, CreationKeepsToken, CreationTellsFirst, VolumesStayGiven, RunsGiveVolumes, VolumeStays, VolumeNumbersNeverFall, CreatedIdsDiffer};

/// An accepted creation that repeats no other makes one row, with the account's next number, the asked origin and tags, the asked size or
/// the origin's, the origin's line or one of its own, and the origin's blocks of that moment or none; it keeps its client token, and all else is what time leaves of it. The origin is
/// a completed snapshot that the caller may read, not restored for a time, and no greater than the volume; the account had
/// fewer than 1000 volumes.
pub fn volume_is_as_asked()
    ensures { VolumeIsAsAsked }
{}

/// A volume is shown and taken out for the account of its key alone: its row as it is, and its blocks go with it. To others, and where it
/// isn't there, each call that names it is E9 and changes nothing but by time.
pub fn volume_is_the_owners()
    ensures shown { OwnerIsShown }
    ensures deleted { OwnerTakesOut }
    ensures unknown { VolumeIsUnknown }
    ensures row { ShownVolumeIsTheRow }
    ensures own { DeletedVolumeIsOwn }
{}

/// A creation with a client token acts once: whatever is called in between by whomever, the same call is answered as the first time,
/// makes nothing and changes nothing but by time, where an absent size counts as the size that was made. Another creation of the account
/// with that token, or a start, is E11 of the volume, and a creation with the token of a start E11 of the snapshot.
pub fn creation_acts_once()
    ensures once { CreationActsOnce }
    ensures size { SizeMadeIsTheSame }
    ensures conflict { OtherCreationConflicts }
    ensures start { StartConflictsWithVolume }
    ensures creation { CreationConflictsWithStart }
    ensures kept { CreationKeepsToken }
    ensures again { CreationTellsFirst }
{}

/// A volume's row stays as it is through every call but an accepted deletion by its owner: also when its origin is deleted. Each volume's
/// number was given out.
pub fn volume_stays()
    ensures each_call { VolumesStayGiven }
    ensures run { RunsGiveVolumes }
    ensures stays { VolumeStays }
{}

/// No account's next volume number ever falls, so two volumes that were created by calls that repeat no other differ in their ids.
pub fn created_ids_differ()
    ensures numbers { VolumeNumbersNeverFall }
    ensures ids { CreatedIdsDiffer }
{}
