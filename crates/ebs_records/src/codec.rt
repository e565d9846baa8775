// What has one spelling in bytes.
ghost use Rattle.std.specs.Prelude.{◌≡◌, ◌++◌, List, ℕ, OnOk};
ghost use Rattle.ebs_records.specs.declared.codec.Unread.TheVariants.{Memory};
ghost use Rattle.ebs_records.specs.inner.Reading.{Reads};

use crate::input::Input;
use std::alloc::{AllocError, AllocFailed, Global};

/// Why a value wasn't read.
#[derive(Debug, Drop)]
pub enum Unread {
    /// No value begins the bytes.
    Malformed,
    Memory,
}

impl From<AllocError> for Unread {
    ghost from_gives = { λ _ e. e ≡ Memory };

    fn from(_e: AllocError) -> Unread {
        Unread::Memory
    }
}

impl<T: Drop> From<AllocFailed<T>> for Unread {
    ghost from_gives = { λ _ e. e ≡ Memory };

    fn from(_e: AllocFailed<T>) -> Unread {
        Unread::Memory
    }
}

/// Values with one spelling each. Bytes may follow it.
pub trait Codec: Sized + Drop {
    /// Which values have a spelling.
    ghost fits: { Self → Type 0 };

    ghost spelled: { Self → List ℕ };

    /// Writes the value behind what is there.
    fn write(&self, out: &mut Vec<u8>) -> Result<(), AllocError>
        requires { fits self.now }
        ensures { OnOk result (out.new.items ≡ out.old.items ++ spelled self.now) };

    /// Takes the value at the front. After an error nothing is known of what is left.
    fn read(alloc: Global, input: &mut Input) -> Result<Self, Unread>
        ensures { Reads fits spelled input.old input.new result };

    /// No value's spelling begins another's.
    ghost apart: { (v w : Self) (x y : List ℕ) → fits v → fits w → spelled v ++ x ≡ spelled w ++ y → (v ≡ w) × (x ≡ y) };
}
