// Who calls, what is named, and when.
use crate::text::Text;
use ebs_tables::{Key, Sequence};
use std::marker::Model;

/// An account, by its number below 10^12: twelve decimal digits.
#[derive(Clone, Copy, Debug, PartialEq, Eq, PartialOrd, Ord)]
pub struct Account {
    number: u64,
}

impl Model for Account {
    ghost use Rattle.std.specs.Prelude.{ℕ, ◌<◌, ◌^◌};

    ghost Value = { ℕ };

    ghost view = { λ a. a.number };

    ghost invariant = { λ a. a.number < 10 ^ 12 };

    ghost inverse = { λ n. record { number = n } };
}

impl Account {
    ghost use Rattle.std.specs.Prelude.{◌≡◌, ◌<◌, ◌^◌};

    pub fn new(number: u64) -> Self
        requires { number < 10 ^ 12 }
        ensures { result ≡ number }
    {
        Account { number }
    }

    pub fn number(self) -> u64
        ensures value { result ≡ self }
        ensures below { self < 10 ^ 12 }
    {
        self.number
    }
}

/// The number of a resource among its owner's of that kind, below 2^28: seven hexadecimal digits.
#[derive(Clone, Copy, Debug, PartialEq, Eq, PartialOrd, Ord)]
pub struct KeyNumber {
    number: u32,
}

impl Model for KeyNumber {
    ghost use Rattle.std.specs.Prelude.{ℕ, ◌<◌, ◌^◌};

    ghost Value = { ℕ };

    ghost view = { λ k. k.number };

    ghost invariant = { λ k. k.number < 2 ^ 28 };

    ghost inverse = { λ n. record { number = n } };
}

impl KeyNumber {
    ghost use Rattle.std.specs.Prelude.{◌≡◌, ◌<◌, ◌^◌};

    pub fn new(number: u32) -> Self
        requires { number < 2 ^ 28 }
        ensures { result ≡ number }
    {
        KeyNumber { number }
    }

    pub fn number(self) -> u32
        ensures value { result ≡ self }
        ensures below { self < 2 ^ 28 }
    {
        self.number
    }
}

/// The key of a snapshot: its owner, and its number among the owner's snapshots.
#[derive(Clone, Copy, Debug, PartialEq, Eq, PartialOrd, Ord)]
pub struct SnapKey {
    pub account: Account,
    pub number: KeyNumber,
}

impl Key for Account {
    ghost use Rattle.std.specs.FinMap.{nat_cmp-IsAntisymmetric};

    ghost exact = { nat_cmp-IsAntisymmetric };
}

impl Key for SnapKey {
    ghost use Rattle.ebs_model.specs.inner.Orders.{exact_snaps};

    ghost exact = { exact_snaps };
}

/// A client token of an account: one text can be a token of several accounts.
#[derive(Debug, Drop, PartialEq, Eq, PartialOrd, Ord)]
pub struct TokenKey {
    pub account: Account,
    pub text: Text,
}

impl Key for TokenKey {
    ghost use Rattle.ebs_model.specs.inner.Orders.{exact_tokens};

    ghost exact = { exact_tokens };
}

/// The key of a volume: its owner, and its number among the owner's volumes.
#[derive(Clone, Copy, Debug, PartialEq, Eq, PartialOrd, Ord)]
pub struct VolKey {
    pub account: Account,
    pub number: KeyNumber,
}

impl Key for VolKey {
    ghost use Rattle.ebs_model.specs.inner.Orders.{exact_vols};

    ghost exact = { exact_vols };
}

/// The key of a Recycle Bin rule: its owner, and its number among the owner's rules.
#[derive(Clone, Copy, Debug, PartialEq, Eq, PartialOrd, Ord)]
pub struct RuleKey {
    pub account: Account,
    pub number: KeyNumber,
}

/// The key of a lifecycle policy: its owner, and its number among the owner's policies.
#[derive(Clone, Copy, Debug, PartialEq, Eq, PartialOrd, Ord)]
pub struct PolicyKey {
    pub account: Account,
    pub number: KeyNumber,
}

impl Key for PolicyKey {
    ghost use Rattle.ebs_model.specs.inner.Orders.{exact_policies};

    ghost exact = { exact_policies };
}

/// The key of any resource.
#[derive(Clone, Copy, Debug, PartialEq, Eq)]
pub enum AnyKey {
    Snap(SnapKey),
    Vol(VolKey),
    Rule(RuleKey),
    Policy(PolicyKey),
}

/// Ids of resources, of one kind or of several.
pub type Ids = Sequence<AnyKey>;

/// A moment, in whole seconds since 1970-01-01T00:00:00 UTC.
#[derive(Clone, Copy, Debug, PartialEq, Eq, PartialOrd, Ord)]
pub struct Moment {
    pub second: u64,
}
