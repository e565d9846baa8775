// Modes and terms of locks.
use crate::codec::{Codec, Unread};
use crate::input::Input;
use ebs_model::{LockMode, Moment, Term};
use std::alloc::{AllocError, Global};

impl Codec for LockMode {
    ghost use Rattle.ebs_records.specs.Fields.{mode, IsMode};
    ghost use Rattle.ebs_records.specs.inner.Locks.{apart_mode};

    ghost fits = { IsMode };

    ghost spelled = { mode };

    ghost apart = { apart_mode };

    fn write(&self, out: &mut Vec<u8>) -> Result<(), AllocError> {
        let place = match self {
            LockMode::Governance => 0,
            LockMode::Compliance => 1,
        };
        Ok(out.push(place)?)
    }

    fn read(_alloc: Global, input: &mut Input) -> Result<LockMode, Unread> {
        match input.take(1) {
            Some([0]) => Ok(LockMode::Governance),
            Some([1]) => Ok(LockMode::Compliance),
            _ => Err(Unread::Malformed),
        }
    }
}

impl Codec for Term {
    ghost use Rattle.ebs_records.specs.Fields.{term, IsTerm};
    ghost use Rattle.ebs_records.specs.inner.Locks.{apart_term};

    ghost fits = { IsTerm };

    ghost spelled = { term };

    ghost apart = { apart_term };

    fn write(&self, out: &mut Vec<u8>) -> Result<(), AllocError> {
        match self {
            Term::Days(days) => {
                out.push(0)?;
                days.write(out)
            }
            Term::Date(date) => {
                out.push(1)?;
                date.write(out)
            }
        }
    }

    fn read(alloc: Global, input: &mut Input) -> Result<Term, Unread> {
        match input.take(1) {
            Some([0]) => Ok(Term::Days(u32::read(alloc, input)?)),
            Some([1]) => Ok(Term::Date(Moment::read(alloc, input)?)),
            _ => Err(Unread::Malformed),
        }
    }
}
