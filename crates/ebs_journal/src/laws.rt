// The laws of a journal's bytes.
ghost use Rattle.std.specs.Prelude.{◌≡◌, ◌≢◌, ◌⊎◌, ℕ, Bool, List};
ghost use Rattle.ebs_world.specs.declared.area.Area.{Area};
ghost use Rattle.ebs_world.specs.Image.{Image, Keeps};
ghost use Rattle.ebs_journal.specs.declared.refusal.JournalRefusal.{JournalRefusal};
ghost use Rattle.ebs_journal.specs.Opening.{Runs, IsJournal, IsRefused};
ghost use Rattle.ebs_journal.specs.inner.Opening.{IsFault};
ghost use Rattle.ebs_journal.specs.inner.Standing.{OnJournal, IsStaged, IsAside, IsTurned};

/// Bytes are one journal at most: one area counts, with one epoch, one checkpoint and one list of records.
pub fn one_journal()
    ensures records { (f : ℕ → ℕ) (at m n : ℕ) (qs rs : List (List ℕ)) → Runs f at qs m → Runs f at rs n → f m ≢ 1 → f n ≢ 1 → qs ≡ rs }
    ensures journal { (c : Image) (a b : Area) (d e : ℕ) (p q : List ℕ) (qs rs : List (List ℕ)) → IsJournal c a d p qs → IsJournal c b e q rs
        → (a ≡ b) × (d ≡ e) × (p ≡ q) × (qs ≡ rs) }
{}

/// No reason to refuse stands of a journal, but for a fault of the disk and want of memory.
pub fn none_refused()
    ensures { (c : Image) (a : Area) (d : ℕ) (p : List ℕ) (rs : List (List ℕ)) (refusal : JournalRefusal) → IsJournal c a d p rs → IsRefused c refusal
        → IsFault refusal }
{}

/// At most one reason to refuse stands of what is read. So each refusal comes exactly where its reason stands, or the disk
/// or memory failed.
pub fn one_refusal()
    ensures { (c : Image) (first second : JournalRefusal) → IsRefused c first → IsRefused c second → (first ≡ second) ⊎ (IsFault first ⊎ IsFault second) }
{}

/// What others write is no matter to a journal.
pub fn others_keep()
    ensures journal { (c d : Image) (area : Area) (epoch : ℕ) (checkpoint : List ℕ) (rs : List (List ℕ)) → Keeps OnJournal c d
        → IsJournal c area epoch checkpoint rs → IsJournal d area epoch checkpoint rs }
    ensures staged { (c d : Image) (area : Area) (epoch : ℕ) (checkpoint : List ℕ) (rs : List (List ℕ)) (r : List ℕ) → Keeps OnJournal c d
        → IsStaged c area epoch checkpoint rs r → IsStaged d area epoch checkpoint rs r }
    ensures turned { (c d : Image) (area : Area) (epoch : ℕ) (checkpoint : List ℕ) (rs : List (List ℕ)) (next : List ℕ) → Keeps OnJournal c d
        → IsTurned c area epoch checkpoint rs next → IsTurned d area epoch checkpoint rs next }
    ensures aside { (c d : Image) (area : Area) (shut : Bool) → Keeps OnJournal c d → IsAside shut c area → IsAside shut d area }
{}
