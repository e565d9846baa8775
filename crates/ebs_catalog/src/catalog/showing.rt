// Walks over all rows, for whoever writes them down.
use super::{Catalog, first_of, first_token, first_volume};
use crate::rows::{AccountRow, KeptRow};
use ebs_bin::Rules;
use ebs_model::{Account, Policy, PolicyKey, SnapKey, TokenKey, TokenRow, VolKey, VolRow};
use ebs_tables::Filled;

impl Catalog {
    ghost use Rattle.std.specs.Prelude.{◌≡◌, ℕ, Some, map as list_map};
    ghost use Rattle.std.specs.FinMap as map;
    ghost use Rattle.ebs_model.specs.declared.keys.SnapKey.{SnapKey};
    ghost use Rattle.ebs_model.specs.declared.rows.SnapRow.{SnapRow};
    ghost use Rattle.ebs_bin.specs.Books.{Shelf, book};
    ghost use Rattle.ebs_catalog.specs.declared.rows.KeptRow.{KeptRow};
    ghost use Rattle.ebs_catalog.specs.declared.rows.AccountRow.{AccountRow};
    ghost use Rattle.ebs_catalog.specs.Held.{rows_in, whole, own_in};

    /// Each row of a snapshot stands at its own key.
    pub fn keeps_places(&self)
        ensures { (key : SnapKey) (row : SnapRow) → map.get (rows_in self.now).snaps key ≡ Some row → row.key ≡ key }
    {
        let _ = &self.snaps;
    }

    /// All rows of snapshots, those that time has ended among them, in ascending account and then number.
    pub fn snapshots(&self) -> Filled<'_, SnapKey, KeptRow>
        ensures { list_map (λ (e : SnapKey × KeptRow). (e.0, whole e.1)) result ≡ map.entries (rows_in self.now).snaps }
    {
        self.snaps.from(&first_of(Account::new(0)))
    }

    /// All accounts that have made a snapshot, a volume or a policy, in ascending number.
    pub fn accounts(&self) -> Filled<'_, Account, AccountRow>
        ensures { list_map (λ (e : ℕ × AccountRow). (e.0, own_in e.1)) result ≡ map.entries (rows_in self.now).own }
    {
        self.owns.from(&Account::new(0))
    }

    /// All client tokens, in ascending account and then text.
    pub fn tokens(&self) -> Filled<'_, TokenKey, TokenRow>
        ensures { result ≡ map.entries (rows_in self.now).tokens }
    {
        self.tokens.from(&first_token(self.alloc, Account::new(0)))
    }

    /// All rows of volumes, in ascending account and then number.
    pub fn volumes(&self) -> Filled<'_, VolKey, VolRow>
        ensures { result ≡ map.entries (rows_in self.now).vols }
    {
        self.vols.from(&first_volume(Account::new(0)))
    }

    /// The rules of each account that has made one, in ascending account.
    pub fn rules(&self) -> Filled<'_, Account, Rules>
        ensures { list_map (λ (e : ℕ × Shelf). (e.0, book e.1)) result ≡ map.entries (rows_in self.now).books }
    {
        self.books.from(&Account::new(0))
    }

    /// All policies themselves, in ascending account and then number.
    pub fn whole_policies(&self) -> Filled<'_, PolicyKey, Policy>
        ensures { result ≡ map.entries (rows_in self.now).policies }
    {
        self.policies.all()
    }
}
