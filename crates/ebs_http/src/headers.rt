// The header fields of a message.
use ebs_model::Bytes;
use std::marker::Model;

/// A field: its name as it was sent, and its value without the white space around it
/// (RFC 9110, section 5).
#[derive(Debug, Drop)]
pub struct Header {
    pub name: Bytes,
    pub value: Bytes,
}

impl Header {
    ghost use Rattle.std.specs.Prelude.{◌≡◌};
    ghost use Rattle.ebs_http.specs.Messages.{is_named};

    /// Whether the field has this name, in any case.
    pub fn is_named(&self, name: &str) -> bool
        ensures { result ≡ is_named name.now self.now }
    {
        self.name.as_slice().eq_ignore_ascii_case(name.as_bytes())
    }
}

/// The fields of a message in the order in which they were sent.
#[derive(Debug, Drop)]
pub struct Headers {
    fields: Vec<Header>,
}

impl Model for Headers {
    ghost use Rattle.std.specs.Prelude.{List};
    ghost use Rattle.ebs_http.specs.declared.headers.Header.{Header};

    ghost Value = { List Header };

    ghost view = { λ h. h.fields.items };
}

impl Headers {
    ghost use Rattle.std.specs.Prelude.{◌≡◌, ◌==◌, length, find};
    ghost use Rattle.std.specs.Option.{option_copied};
    ghost use Rattle.std.specs.List.{list_any};
    ghost use Rattle.ebs_http.specs.Messages.{is_named};

    pub fn from_vec(fields: Vec<Header>) -> Self
        ensures { result ≡ fields.items }
    {
        Headers { fields }
    }

    pub fn into_vec(self) -> Vec<Header>
        ensures { result.items ≡ self }
    {
        self.fields
    }

    pub fn as_slice(&self) -> &[Header]
        ensures { result.now ≡ self.now }
    {
        self.fields.as_slice()
    }

    pub fn len(&self) -> usize
        ensures { result ≡ length self.now }
    {
        self.fields.len()
    }

    pub fn is_empty(&self) -> bool
        ensures { result ≡ (length self.now == 0) }
    {
        self.fields.is_empty()
    }

    /// Whether a field has this name, in any case.
    pub fn contains(&self, name: &str) -> bool
        ensures { result ≡ list_any (is_named name.now) self.now }
    {
        self.fields.iter().any(|field| field.is_named(name))
    }

    /// The first field of this name, in any case.
    pub fn find(&self, name: &str) -> Option<&Header>
        ensures { option_copied result ≡ find (is_named name.now) self.now }
    {
        self.fields.iter().find(|field| field.is_named(name))
    }
}
