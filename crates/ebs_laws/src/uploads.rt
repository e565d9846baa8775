// How an upload begins and ends.
ghost use Rattle.ebs_laws.specs.UploadLaws.{RoomIsEnough, StartGivesNumber, ChildBeginsAsParent, CallKeepsNumbers, NextNumberIsFree, CallKeepsKeys, CallKeepsCounters, RightChecksumIsAccepted, CompleteEndsUpload, CompletedBlocksStay, ChecksumIsOfBytes, ChecksumIgnoresOrder};
ghost use Rattle.ebs_laws.specs.FieldLaws.{ChecksumIsOfDigests};
ghost use Rattle.std.specs.Prelude.{ℕ, List};
ghost use Rattle.std.specs.FinMap as fin;
ghost use Rattle.std.specs.Ordering.{nat_cmp};
ghost use Rattle.std.specs.List.Sorted.{IsStrictlySortedBy};
ghost use Rattle.ebs_model.specs.Time.{Snapshot};
ghost use Rattle.ebs_model.specs.Machine.{empty_machine};
ghost use Rattle.ebs_model.specs.Timed.{Timed, after_all};
ghost use Rattle.ebs_laws.specs.Uploads.{NumbersGiven, KeysStand, CountersFit};

/// An account with room may start an upload. StartSnapshot, where it repeats no other start, gives the account's next number to an upload that has its
/// parent's blocks, or none without a parent, and touches no other snapshot or account.
pub fn start_gives_number()
    ensures accepted { RoomIsEnough }
    ensures starts { StartGivesNumber }
{}

/// An upload with a parent begins, by the call that starts it, with the blocks and the line that the parent has at that moment. The parent stays as it is.
pub fn child_begins_as_parent()
    ensures { ChildBeginsAsParent }
{}

/// No number is given twice: every snapshot has one that its account has given out, so the next one is free.
pub fn numbers_are_given_once()
    ensures start { (secret : List ℕ) → NumbersGiven (empty_machine secret) }
    ensures each_call { CallKeepsNumbers }
    ensures run { (secret : List ℕ) (turns : List Timed) → NumbersGiven (after_all (empty_machine secret) turns) }
    ensures free { NextNumberIsFree }
{}

/// Every row has the key under which it is found.
pub fn keys_are_places()
    ensures start { (secret : List ℕ) → KeysStand (empty_machine secret) }
    ensures each_call { CallKeepsKeys }
    ensures run { (secret : List ℕ) (turns : List Timed) → KeysStand (after_all (empty_machine secret) turns) }
{}

/// An account gives out at most 2^28 numbers. So a key's number is below that.
pub fn numbers_fit()
    ensures start { (secret : List ℕ) → CountersFit (empty_machine secret) }
    ensures each_call { CallKeepsCounters }
    ensures run { (secret : List ℕ) (turns : List Timed) → CountersFit (after_all (empty_machine secret) turns) }
{}

/// CompleteSnapshot ends an upload of so many blocks, with the stated checksum, and keeps its blocks.
pub fn complete_keeps_blocks()
    ensures accepted { RightChecksumIsAccepted }
    ensures completes { CompleteEndsUpload }
{}

/// The blocks of a completed snapshot never change while it is there, whatever is called.
pub fn completed_blocks_stay()
    ensures { CompletedBlocksStay }
{}

/// The checksum of an upload goes by ascending index, whatever the order of the puts: it depends only on the indexes that
/// were put, and on the bytes that are there.
pub fn checksum_ignores_order()
    ensures ascending { (s : Snapshot) → IsStrictlySortedBy nat_cmp (fin.keys s.row.put) }
    ensures bytes_alone { ChecksumIsOfBytes }
    ensures two_orders { ChecksumIgnoresOrder }
{}

/// The checksum with which an upload is completed is the SHA-256 of the digests of the blocks that were put, by ascending index.
pub fn checksum_is_of_digests()
    ensures { ChecksumIsOfDigests }
{}
