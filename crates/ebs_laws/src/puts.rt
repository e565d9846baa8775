// What a put writes, how long it stays, and how puts are counted.
ghost use Rattle.ebs_laws.specs.PutLaws.{WholeBlockIsAccepted, DigestIsChecked, PutWritesOneBlock, StampsAreCounted, ChangesAreCounted, CallKeepsCounts, CallKeepsStamps, ReadyBlockIsRead, ReadIsOfBlock, ReadChangesNothing, CallKeepsTelling, CallKeepsIndexes, IndexIsSmall, CallKeepsBlock, RunKeepsBlock, RunReadsLastPut};
ghost use Rattle.std.specs.Prelude.{ℕ, List};
ghost use Rattle.ebs_model.specs.Machine.{empty_machine};
ghost use Rattle.ebs_model.specs.Timed.{Timed, after_all};
ghost use Rattle.ebs_laws.specs.Puts.{CountsFit, StampsGiven, StampsTell, IndexesFit};

/// A whole block is accepted at an index of an open upload. An accepted put writes its block and marks its index, and
/// changes no other block, mark, snapshot or account.
pub fn put_writes_one_block()
    ensures accepted { WholeBlockIsAccepted }
    ensures digests { DigestIsChecked }
    ensures writes { PutWritesOneBlock }
{}

/// The number of the next stamp rises by one with each block that is written, and the number of changes with each
/// accepted change: reads, refusals, and starts and creations that repeat another raise neither.
pub fn changes_are_counted()
    ensures stamps { StampsAreCounted }
    ensures changes { ChangesAreCounted }
{}

/// A store takes at most 2^40 changes, and gives no more stamps than that.
pub fn counts_fit()
    ensures start { (secret : List ℕ) → CountsFit (empty_machine secret) }
    ensures each_call { CallKeepsCounts }
    ensures run { (secret : List ℕ) (turns : List Timed) → CountsFit (after_all (empty_machine secret) turns) }
{}

/// The next stamp is above that of every block, of snapshots and of volumes.
pub fn stamps_are_new()
    ensures start { (secret : List ℕ) → StampsGiven (empty_machine secret) }
    ensures each_call { CallKeepsStamps }
    ensures run { (secret : List ℕ) (turns : List Timed) → StampsGiven (after_all (empty_machine secret) turns) }
{}

/// Blocks of one stamp are one block, with the same bytes, wherever they stand.
pub fn stamps_tell_bytes()
    ensures each_call { CallKeepsTelling }
    ensures run { (secret : List ℕ) (turns : List Timed) → StampsTell (after_all (empty_machine secret) turns) }
{}

/// Every snapshot and every volume has at most 16384 GiB, and its blocks stand within its size. So an index has 32 bits.
pub fn indexes_fit()
    ensures start { (secret : List ℕ) → IndexesFit (empty_machine secret) }
    ensures each_call { CallKeepsIndexes }
    ensures run { (secret : List ℕ) (turns : List Timed) → IndexesFit (after_all (empty_machine secret) turns) }
    ensures small { IndexIsSmall }
{}

/// A snapshot that may be read answers to a good token with the bytes of its block and their SHA-256, to no other token,
/// and with nothing else. A read changes nothing.
pub fn read_gives_block()
    ensures answers { ReadyBlockIsRead }
    ensures alone { ReadIsOfBlock }
    ensures leaves { ReadChangesNothing }
{}

/// A block stays until another is put in its place, whatever else is called, while its snapshot is there and hasn't
/// failed.
pub fn run_keeps_block()
    ensures each_call { CallKeepsBlock }
    ensures run { RunKeepsBlock }
{}

/// A block that is read is the last one that was put there.
pub fn run_reads_last_put()
    ensures { RunReadsLastPut }
{}
