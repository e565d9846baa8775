// What spellings are.
ghost use Rattle.std.specs.Prelude.{◌≡◌};
ghost use Rattle.ebs_records.specs.declared.record.Record.{Record};
ghost use Rattle.ebs_records.specs.Records.{IsRecord, record_bytes};

/// No two records have the same bytes.
pub fn one_spelling()
    ensures { (v w : Record) → IsRecord v → IsRecord w → record_bytes v ≡ record_bytes w → v ≡ w }
{}
