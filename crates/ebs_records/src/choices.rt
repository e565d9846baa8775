// Flags and options.
use crate::codec::{Codec, Unread};
use crate::input::Input;
use std::alloc::{AllocError, Global};

impl Codec for bool {
    ghost use Rattle.ebs_records.specs.Fields.{flag, IsFlag};
    ghost use Rattle.ebs_records.specs.inner.Choices.{apart_flag};

    ghost fits = { IsFlag };

    ghost spelled = { flag };

    ghost apart = { apart_flag };

    fn write(&self, out: &mut Vec<u8>) -> Result<(), AllocError> {
        let byte = if *self { 1 } else { 0 };
        Ok(out.push(byte)?)
    }

    fn read(_alloc: Global, input: &mut Input) -> Result<bool, Unread> {
        match input.take(1) {
            Some([0]) => Ok(false),
            Some([1]) => Ok(true),
            _ => Err(Unread::Malformed),
        }
    }
}

impl<T: Codec> Codec for Option<T> {
    ghost use Rattle.ebs_records.specs.Fields.{optional, IsOptional};
    ghost use Rattle.ebs_records.specs.inner.Choices.{apart_optional};

    ghost fits = { IsOptional T.fits };

    ghost spelled = { optional T.spelled };

    ghost apart = { apart_optional T.fits T.spelled T.Codec.apart };

    fn write(&self, out: &mut Vec<u8>) -> Result<(), AllocError> {
        match self {
            None => false.write(out),
            Some(value) => {
                true.write(out)?;
                value.write(out)
            }
        }
    }

    fn read(alloc: Global, input: &mut Input) -> Result<Option<T>, Unread> {
        if bool::read(alloc, input)? {
            Ok(Some(T::read(alloc, input)?))
        } else {
            Ok(None)
        }
    }
}
