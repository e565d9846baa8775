// What has an array.
ghost use Rattle.std.specs.Prelude.{◌≡◌};
ghost use Rattle.ebs_holds.specs.Holders.{of_snap, of_vol};

use ebs_model::{Account, KeyNumber, SnapKey, VolKey};
use ebs_tables::Key;

/// A snapshot or a volume.
#[derive(Clone, Copy, Debug, PartialEq, Eq, PartialOrd, Ord)]
pub struct Holder {
    pub is_volume: bool,
    pub account: Account,
    pub number: KeyNumber,
}

impl Key for Holder {
    ghost use Rattle.ebs_holds.specs.Orders.{exact_holders};

    ghost exact = { exact_holders };
}

impl Holder {
    ghost use Rattle.std.specs.Prelude.{◌≡◌};
    ghost use Rattle.ebs_holds.specs.Holders.{of_snap, of_vol};

    pub fn snapshot(key: &SnapKey) -> Self
        ensures { result ≡ of_snap key.now }
    {
        Holder {
            is_volume: false,
            account: key.account,
            number: key.number,
        }
    }

    pub fn volume(key: &VolKey) -> Self
        ensures { result ≡ of_vol key.now }
    {
        Holder {
            is_volume: true,
            account: key.account,
            number: key.number,
        }
    }
}
