// Laws of what counts of header fields and of a query.
ghost use Rattle.ebs_members.specs.inner.Laws as law;

/// What counts of header fields.
pub fn field_laws()
    ensures any_case { law.AnyCase }
    ensures other { law.OtherField }
    ensures first { law.FirstField }
{}

/// What counts of the pairs of a query.
pub fn query_laws()
    ensures other { law.OtherPair }
    ensures first { law.FirstPair }
{}
