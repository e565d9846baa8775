// What a status tells.
ghost use Rattle.std.specs.Prelude.{◌≡◌, ◌<◌, ◌⊎◌, ℕ};
ghost use Rattle.ebs_model.specs.Quotas.{Rose};
ghost use Rattle.ebs_session.specs.Session.{TellsOf, status_of};
ghost use Rattle.ebs_session.specs.declared.end.End.{End};
ghost use Rattle.ebs_session.specs.declared.end.End.TheVariants as ends;

/// A session's status tells which count of faults rose, the source's or the sink's, and which stood.
pub fn statuses()
    ensures four { (end : End) → status_of end ≡ 4 → end ≡ ends.InputFailed }
    ensures five { (end : End) → status_of end ≡ 5 → end ≡ ends.OutputFailed }
    ensures eight { (end : End) → status_of end ≡ 8 → end ≡ ends.Memory }
    ensures source_fault { (end : End) (i j o p : ℕ) → TellsOf end i j o p → status_of end ≡ 4 → Rose i j × (p ≡ o) }
    ensures sink_fault { (end : End) (i j o p : ℕ) → TellsOf end i j o p → status_of end ≡ 5 → Rose o p × (j ≡ i) }
    ensures no_fault { (end : End) (i j o p : ℕ) → TellsOf end i j o p → status_of end ≡ 8 → (j ≡ i) × (p ≡ o) }
    ensures source_rose { (end : End) (i j o p : ℕ) → TellsOf end i j o p → i < j → status_of end ≡ 4 }
    ensures sink_rose { (end : End) (i j o p : ℕ) → TellsOf end i j o p → o < p → status_of end ≡ 5 }
    ensures whole { (end : End) → (end ≡ ends.Done) ⊎ (end ≡ ends.Memory) → (status_of end ≡ 0) ⊎ (status_of end ≡ 8) }
{}
