// Numbers, with the most significant byte first.
ghost use Rattle.std.specs.Prelude.{◌≡◌, length};
ghost use Rattle.ebs_records.specs.Fields.{long};

use crate::codec::{Codec, Unread};
use crate::input::Input;
use std::alloc::{AllocError, Global};

impl Codec for u32 {
    ghost use Rattle.std.specs.Prelude.{◌<◌, ◌^◌};
    ghost use Rattle.ebs_records.specs.Fields.{word};
    ghost use Rattle.ebs_records.specs.inner.Numbers.{apart_word};

    ghost fits = { λ n. n < 2 ^ 32 };

    ghost spelled = { word };

    ghost apart = { apart_word };

    #[tactic(auto, unfolding(crate::specs::Fields::word))]
    fn write(&self, out: &mut Vec<u8>) -> Result<(), AllocError> {
        out.extend_from_slice(&self.to_be_bytes())
    }

    #[tactic(auto, unfolding(crate::specs::Fields::word))]
    fn read(_alloc: Global, input: &mut Input) -> Result<u32, Unread> {
        match input.take(4) {
            Some(taken) => Ok(u32::from_be_bytes([taken[0], taken[1], taken[2], taken[3]])),
            None => Err(Unread::Malformed),
        }
    }
}

impl Codec for u64 {
    ghost use Rattle.std.specs.Prelude.{◌<◌, ◌^◌};
    ghost use Rattle.ebs_records.specs.Fields.{long};
    ghost use Rattle.ebs_records.specs.inner.Numbers.{apart_long};

    ghost fits = { λ n. n < 2 ^ 64 };

    ghost spelled = { long };

    ghost apart = { apart_long };

    #[tactic(auto, unfolding(crate::specs::Fields::long))]
    fn write(&self, out: &mut Vec<u8>) -> Result<(), AllocError> {
        out.extend_from_slice(&self.to_be_bytes())
    }

    fn read(_alloc: Global, input: &mut Input) -> Result<u64, Unread> {
        match input.take(8) {
            Some(taken) => Ok(long_of(taken)),
            None => Err(Unread::Malformed),
        }
    }
}

/// The number that the eight bytes spell.
fn long_of(bytes: &[u8]) -> u64
    requires { length bytes.now ≡ 8 }
    ensures { long result ≡ bytes.now }
{
    u64::from_be_bytes([
        bytes[0], bytes[1], bytes[2], bytes[3], bytes[4], bytes[5], bytes[6], bytes[7],
    ])
}
