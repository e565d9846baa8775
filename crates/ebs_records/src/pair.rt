// Two values, one behind the other.
use crate::codec::{Codec, Unread};
use crate::input::Input;
use std::alloc::{AllocError, Global};

impl<A: Codec, B: Codec> Codec for (A, B) {
    ghost use Rattle.std.specs.Prelude.{◌++◌};
    ghost use Rattle.ebs_records.specs.inner.Apart.{apart_pair};

    ghost fits = { λ p. A.fits p.0 × B.fits p.1 };

    ghost spelled = { λ p. A.spelled p.0 ++ B.spelled p.1 };

    ghost apart = { apart_pair A.fits A.spelled B.fits B.spelled A.Codec.apart B.Codec.apart };

    fn write(&self, out: &mut Vec<u8>) -> Result<(), AllocError> {
        self.0.write(out)?;
        self.1.write(out)
    }

    fn read(alloc: Global, input: &mut Input) -> Result<(A, B), Unread> {
        let first = A::read(alloc, input)?;
        let second = B::read(alloc, input)?;
        Ok((first, second))
    }
}
