// What a start makes, and which ids are given out.
ghost use Rattle.ebs_laws.specs.StartLaws.{NumbersNeverFall, StartedIdsDiffer, StartedRowIsWanted, StartHasRoom};

/// No account's next number ever falls, so two snapshots that were made by calls that repeat no other, as uploads or of volumes, differ in
/// their ids, whatever was called between.
pub fn started_ids_differ()
    ensures numbers { NumbersNeverFall }
    ensures ids { StartedIdsDiffer }
{}

/// The row of an upload, by the call that started it, is what the request asked for: of its owner alone, neither shared nor public, without a lock,
/// in the standard tier, outside the bin, not completed.
pub fn started_row_is_wanted()
    ensures { StartedRowIsWanted }
{}

/// A start that is answered, and repeats no other, finds fewer than 10000 kept snapshots and fewer than 100 open uploads of this account alone.
pub fn start_has_room()
    ensures { StartHasRoom }
{}
