//! What differs, keys and moments.
ghost use Rattle.std.specs.Prelude.{◌≡◌, ◌<◌, ◌^◌};

use ebs_model::{Account, KeyNumber, Moment, SnapKey};
use std::fmt::Debug;
use std::process::Abort;

/// Stops where the two differ. One proof serves each case.
pub fn same<T: PartialEq + Debug + Drop>(rt: &impl Abort, found: T, wanted: T) {
    assert_eq!(rt; found, wanted);
}

pub const fn at(second: u64) -> Moment
    ensures { result.second ≡ second }
{
    Moment { second }
}

pub fn snap_key(number: u32) -> SnapKey
    requires { number < 2 ^ 28 }
{
    SnapKey {
        account: Account::new(1),
        number: KeyNumber::new(number),
    }
}
