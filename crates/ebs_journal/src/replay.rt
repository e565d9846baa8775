// What an opening gives.
use ebs_model::Bytes;
use std::marker::Model;

/// The bytes of records, in their order.
#[derive(Debug, Drop)]
pub struct Payloads {
    payloads: Vec<Bytes>,
}

impl Model for Payloads {
    ghost use Rattle.std.specs.Prelude.{List, ℕ};

    ghost Value = { List (List ℕ) };

    ghost view = { λ p. p.payloads.items };
}

impl Payloads {
    ghost use Rattle.std.specs.Prelude.{◌≡◌, length};

    pub fn from_vec(payloads: Vec<Bytes>) -> Self
        ensures { result ≡ payloads.items }
    {
        Payloads { payloads }
    }

    pub fn into_vec(self) -> Vec<Bytes>
        ensures { result.items ≡ self }
    {
        self.payloads
    }

    pub fn as_slice(&self) -> &[Bytes]
        ensures { result.now ≡ self.now }
    {
        self.payloads.as_slice()
    }
}

/// Places in an area, in bytes from its beginning.
#[derive(Debug, Drop)]
pub struct Places {
    places: Vec<u64>,
}

impl Model for Places {
    ghost use Rattle.std.specs.Prelude.{List, ℕ};

    ghost Value = { List ℕ };

    ghost view = { λ p. p.places.items };
}

impl Places {
    ghost use Rattle.std.specs.Prelude.{◌≡◌, length};

    pub fn from_vec(places: Vec<u64>) -> Self
        ensures { result ≡ places.items }
    {
        Places { places }
    }

    pub fn into_vec(self) -> Vec<u64>
        ensures { result.items ≡ self }
    {
        self.places
    }

    pub fn as_slice(&self) -> &[u64]
        ensures { result.now ≡ self.now }
    {
        self.places.as_slice()
    }
}

/// A checkpoint, the records behind it, and the place of the gate in front of each.
#[derive(Debug, Drop)]
pub struct Replay {
    pub checkpoint: Bytes,
    pub records: Payloads,
    pub places: Places,
}
