// Records of the journal.
ghost use Rattle.std.specs.Prelude.{◌≡◌};
ghost use Rattle.ebs_records.specs.Records as records;

use crate::calls::{read_asked, write_asked};
use crate::codec::{Codec, Unread};
use crate::input::Input;
use ebs_model::{Account, Moment, Request, SnapKey};
use std::alloc::{AllocError, Global};

/// An accepted change. Of a block that is written the bytes stand in the slot, and are left out of the request.
#[derive(Debug, Drop)]
pub struct AcceptedCall {
    pub at: Moment,
    pub account: Account,
    pub request: Request,
    pub slot: Option<u64>,
}

/// A block that was moved to the archive, as the copy of that number, or back.
#[derive(Clone, Copy, Debug, PartialEq, Eq)]
pub struct Transfer {
    pub key: SnapKey,
    pub index: u32,
    pub to_archive: bool,
    pub copy: u64,
    pub slot: u64,
}

/// What the journal has a record of.
#[derive(Debug, Drop)]
pub enum Record {
    Accepted(AcceptedCall),
    /// What time had ended at this moment was given up.
    Advance(Moment),
    Moved(Transfer),
}

impl Codec for AcceptedCall {
    ghost use Rattle.ebs_records.specs.Records.{IsAcceptedCall, accepted};
    ghost use Rattle.ebs_records.specs.inner.Records.{apart_accepted};

    ghost fits = { IsAcceptedCall };

    ghost spelled = { accepted };

    ghost apart = { apart_accepted };

    fn write(&self, out: &mut Vec<u8>) -> Result<(), AllocError> {
        self.at.write(out)?;
        self.account.write(out)?;
        write_asked(&self.request, &self.slot, out)
    }

    fn read(alloc: Global, input: &mut Input) -> Result<AcceptedCall, Unread> {
        let (at, account) = <(Moment, Account)>::read(alloc, input)?;
        let (request, slot) = read_asked(alloc, input)?;
        Ok(AcceptedCall {
            at,
            account,
            request,
            slot,
        })
    }
}

impl Codec for Transfer {
    ghost use Rattle.ebs_records.specs.Records.{IsTransfer, transfer};
    ghost use Rattle.ebs_records.specs.inner.Records.{apart_transfer};

    ghost fits = { IsTransfer };

    ghost spelled = { transfer };

    ghost apart = { apart_transfer };

    fn write(&self, out: &mut Vec<u8>) -> Result<(), AllocError> {
        self.key.write(out)?;
        self.index.write(out)?;
        self.to_archive.write(out)?;
        self.copy.write(out)?;
        self.slot.write(out)
    }

    fn read(alloc: Global, input: &mut Input) -> Result<Transfer, Unread> {
        let (key, (index, (to_archive, (copy, slot)))) = <(
            SnapKey,
            (u32, (bool, (u64, u64))),
        )>::read(alloc, input)?;
        Ok(Transfer {
            key,
            index,
            to_archive,
            copy,
            slot,
        })
    }
}

impl Codec for Record {
    ghost use Rattle.ebs_records.specs.Records.{HasSpelling, record_bytes};
    ghost use Rattle.ebs_records.specs.inner.Records.{apart_record};

    ghost fits = { HasSpelling };

    ghost spelled = { record_bytes };

    ghost apart = { apart_record };

    fn write(&self, out: &mut Vec<u8>) -> Result<(), AllocError> {
        match self {
            Record::Accepted(accepted) => {
                out.push(1)?;
                accepted.write(out)
            }
            Record::Advance(at) => {
                out.push(2)?;
                at.write(out)
            }
            Record::Moved(transfer) => {
                out.push(3)?;
                transfer.write(out)
            }
        }
    }

    fn read(alloc: Global, input: &mut Input) -> Result<Record, Unread> {
        match input.take(1) {
            Some([1]) => Ok(Record::Accepted(AcceptedCall::read(alloc, input)?)),
            Some([2]) => Ok(Record::Advance(Moment::read(alloc, input)?)),
            Some([3]) => Ok(Record::Moved(Transfer::read(alloc, input)?)),
            _ => Err(Unread::Malformed),
        }
    }
}
