// The laws of messages.
ghost use Rattle.std.specs.Prelude.{◌≡◌, ℕ, ◌<◌, length, List, [], ◌∷◌, ◌++◌};
ghost use Rattle.ebs_http.specs.Messages.{ReadsMessage, HasNoMessage, Stands, Reads, Splits};
ghost use Rattle.ebs_http.specs.inner.Messages.{IsMessage, NeverHasMessage};
ghost use Rattle.ebs_http.specs.declared.message.Message.{Message};
ghost use Rattle.ebs_http.specs.declared.message.BadKind.{BadKind};

/// No message is a proper prefix of another, and no bytes are two messages.
pub fn no_proper_prefix()
    ensures prefix { (text more : List ℕ) (m n : Message) → IsMessage text m → IsMessage (text ++ more) n → (more ≡ []) × (m ≡ n) }
    ensures unique { (bytes rest last : List ℕ) (m n : Message) → ReadsMessage bytes m rest → ReadsMessage bytes n last
        → (m ≡ n) × (rest ≡ last) }
    ensures text { (bytes rest : List ℕ) (m : Message) → ReadsMessage bytes m rest
        → (text : List ℕ) × IsMessage text m × (bytes ≡ text ++ rest) }
    ensures front { (text rest : List ℕ) (m : Message) → IsMessage text m → ReadsMessage (text ++ rest) m rest }
{}

/// A stream has its messages and its rest in one way only.
pub fn one_split()
    ensures { (stream rest last : List ℕ) (ms ns : List Message) → Splits stream ms rest → Splits stream ns last
        → (ms ≡ ns) × (rest ≡ last) }
{}

/// As pieces come and messages are taken, the stream so far stays the messages taken and the bytes
/// that wait.
pub fn framing()
    ensures fed { (stream waiting piece : List ℕ) (ms : List Message) → Reads stream ms waiting
        → Reads (stream ++ piece) ms (waiting ++ piece) }
    ensures taken { (stream waiting after : List ℕ) (ms : List Message) (m : Message) → Reads stream ms waiting
        → ReadsMessage waiting m after → Reads stream (ms ++ m ∷ []) after }

    // The messages taken begin those of the whole stream, and are all of them once none is at the front.
    ensures prefix { (stream waiting last : List ℕ) (ms all : List Message) → Reads stream ms waiting → Splits stream all last
        → (left : List Message) × (all ≡ ms ++ left) × Splits waiting left last }
    ensures all { (stream waiting : List ℕ) (ms : List Message) → Reads stream ms waiting → HasNoMessage waiting
        → Splits stream ms waiting }
    ensures bad { (stream waiting more : List ℕ) (ms : List Message) (kind : BadKind) → Reads stream ms waiting
        → Stands kind waiting → Splits (stream ++ more) ms (waiting ++ more) }

    ensures shrinks { (waiting after : List ℕ) (m : Message) → ReadsMessage waiting m after → length after < length waiting }
{}

/// Where a kind stands no message begins, and it stands whatever follows.
pub fn bad_stays()
    ensures none { (kind : BadKind) (bytes : List ℕ) → Stands kind bytes → HasNoMessage bytes }
    ensures never { (kind : BadKind) (bytes : List ℕ) → Stands kind bytes → NeverHasMessage bytes }
    ensures stays { (kind : BadKind) (bytes more : List ℕ) → Stands kind bytes → Stands kind (bytes ++ more) }
{}
