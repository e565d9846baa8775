// Policies' keys, lines and blocks.
use crate::codec::{Codec, Unread};
use crate::input::Input;
use ebs_model::{Account, Block, KeyNumber, Line, PolicyKey};
use std::alloc::{AllocError, Global};

impl Codec for PolicyKey {
    ghost use Rattle.ebs_records.specs.Fields.{IsPolicyKey, policy_key};
    ghost use Rattle.ebs_records.specs.inner.Names.{apart_policy_key};

    ghost fits = { IsPolicyKey };

    ghost spelled = { policy_key };

    ghost apart = { apart_policy_key };

    fn write(&self, out: &mut Vec<u8>) -> Result<(), AllocError> {
        self.account.write(out)?;
        self.number.write(out)
    }

    fn read(alloc: Global, input: &mut Input) -> Result<PolicyKey, Unread> {
        let (account, number) = <(Account, KeyNumber)>::read(alloc, input)?;
        Ok(PolicyKey { account, number })
    }
}

impl Codec for Line {
    ghost use Rattle.ebs_records.specs.inner.Names.{apart_line};
    ghost use Rattle.ebs_records.specs.Names.{IsLine, line};

    ghost fits = { IsLine };

    ghost spelled = { line };

    ghost apart = { apart_line };

    fn write(&self, out: &mut Vec<u8>) -> Result<(), AllocError> {
        self.of_volume.write(out)?;
        self.account.write(out)?;
        self.number.write(out)
    }

    fn read(alloc: Global, input: &mut Input) -> Result<Line, Unread> {
        let (of_volume, (account, number)) = <(bool, (Account, KeyNumber))>::read(alloc, input)?;
        Ok(Line {
            of_volume,
            account,
            number,
        })
    }
}

impl Codec for Block {
    ghost use Rattle.ebs_records.specs.inner.Names.{apart_block};
    ghost use Rattle.ebs_records.specs.Names.{IsBlock, block};

    ghost fits = { IsBlock };

    ghost spelled = { block };

    ghost apart = { apart_block };

    fn write(&self, out: &mut Vec<u8>) -> Result<(), AllocError> {
        self.stamp.write(out)?;
        self.digest.write(out)
    }

    fn read(alloc: Global, input: &mut Input) -> Result<Block, Unread> {
        let (stamp, digest) = <(u64, [u8; 32])>::read(alloc, input)?;
        Ok(Block { stamp, digest })
    }
}
