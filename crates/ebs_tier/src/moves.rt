// Moves that wait.
ghost use Rattle.std.specs.Prelude.{◌≡◌};
ghost use Rattle.ebs_tier.specs.Waiting.{of_key};

use ebs_model::SnapKey;
use ebs_tables::{Key, Table};
use std::alloc::{AllocError, Global};
use std::marker::Model;

/// A block that is to be moved to the archive, or back.
#[derive(Clone, Copy, Debug, PartialEq, Eq, PartialOrd, Ord)]
pub struct Wanted {
    pub key: SnapKey,
    pub index: u32,
    pub to_archive: bool,
}

impl Key for Wanted {
    ghost use Rattle.ebs_tier.specs.Waiting.{exact_wanted};

    ghost exact = { exact_wanted };
}

/// The moves that wait, each once.
#[derive(Debug, Drop)]
pub struct Moves {
    waiting: Table<Wanted, ()>,
}

impl Model for Moves {
    ghost use Rattle.std.specs.FinMap as map;
    ghost use Rattle.std.specs.Coded.{coded_ℕ};
    ghost use base.Stored.{coded_unit};
    ghost use Rattle.ebs_tables.specs.Seen.{seen};
    ghost use Rattle.ebs_tier.specs.contracts.moves.Wanted as wanted;
    ghost use Rattle.ebs_tier.specs.Waiting.{wanted_cmp};

    ghost Value = { map.FinMap wanted_cmp (Unit {0}) };

    ghost coded = { map.code wanted.the_row.coded coded_unit };

    ghost view = { λ m. seen wanted_cmp m.waiting };
}

impl Moves {
    ghost use Rattle.std.specs.Prelude.{◌≡◌, slice_get, OnOk, OnErr};
    ghost use Rattle.std.specs.FinMap as map;
    ghost use Rattle.ebs_tier.specs.Waiting.{waiting, waiting_of};

    pub fn new(alloc: Global) -> Self
        ensures { result ≡ map.empty }
    {
        Moves {
            waiting: Table::new(alloc),
        }
    }

    /// Adds a move. One that waits already stays.
    pub fn add(&mut self, wanted: Wanted) -> Result<(), AllocError>
        ensures ok { OnOk result (self.new ≡ map.insert self.old wanted tt) }
        ensures err { OnErr result (self.new ≡ self.old) }
    {
        self.waiting.insert(wanted, ())?;
        Ok(())
    }

    /// Takes the move out.
    pub fn done(&mut self, wanted: Wanted)
        ensures { self.new ≡ map.remove self.old wanted }
    {
        self.waiting.remove(&wanted);
    }

    /// How many wait.
    pub fn waiting(&self) -> u64
        ensures { result ≡ map.len self.now }
    {
        self.waiting.len() as u64
    }

    /// The least move that waits, by key, index and way.
    pub fn next_move(&self) -> Option<Wanted>
        ensures { result ≡ slice_get (waiting self.now) 0 }
    {
        match self.waiting.iter().next() {
            Some((wanted, _)) => Some(*wanted),
            None => None,
        }
    }

    /// The least move of the snapshot that waits.
    pub fn next_of(&self, key: SnapKey) -> Option<Wanted>
        ensures { result ≡ slice_get (waiting_of self.now key) 0 }
    {
        let start = Wanted {
            key,
            index: 0,
            to_archive: false,
        };
        match self.waiting.from(&start).next() {
            Some((wanted, _)) => of_key(wanted, &key),
            None => None,
        }
    }
}

/// The move, if it is of the snapshot.
fn of_key(wanted: &Wanted, key: &SnapKey) -> Option<Wanted>
    ensures { result ≡ of_key wanted.now key.now }
{
    if wanted.key == *key {
        Some(*wanted)
    } else {
        None
    }
}
