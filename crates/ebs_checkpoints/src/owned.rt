// Accounts with their client tokens, and volumes.
use ebs_model::{Account, KeyNumber, Line, Moment, SnapKey, Tags, Text, VolKey, VolRow};
use ebs_records::{Codec, Input, Record, Unread};
use ebs_tables::Sequence;
use std::alloc::{AllocError, Global};

/// A client token of an account: when it was first used, the record of the call that used it, and the number that it made.
#[derive(Debug, Drop)]
pub struct TokenPoint {
    pub text: Text,
    pub at: Moment,
    pub first: Record,
    pub number: KeyNumber,
}

/// Tokens in ascending text.
pub type TokenPoints = Sequence<TokenPoint>;

/// An account: the number of its next snapshot, volume, rule and policy, and its client tokens.
#[derive(Debug, Drop)]
pub struct AccountRow {
    pub account: Account,
    pub next_snap: u32,
    pub next_vol: u32,
    pub next_rule: u32,
    pub next_policy: u32,
    pub tokens: TokenPoints,
}

/// Accounts in ascending number.
pub type AccountRows = Sequence<AccountRow>;

/// A volume, and the node of its blocks.
#[derive(Debug, Drop)]
pub struct VolPoint {
    pub row: VolRow,
    pub node: u64,
}

/// Volumes in ascending key.
pub type VolPoints = Sequence<VolPoint>;

impl Codec for TokenPoint {
    ghost use Rattle.ebs_checkpoints.specs.Owned.{IsToken, token};
    ghost use Rattle.ebs_checkpoints.specs.inner.Owned.{apart_token};

    ghost fits = { IsToken };

    ghost spelled = { token };

    ghost apart = { apart_token };

    fn write(&self, out: &mut Vec<u8>) -> Result<(), AllocError> {
        self.text.write(out)?;
        self.at.write(out)?;
        self.first.write(out)?;
        self.number.write(out)
    }

    fn read(alloc: Global, input: &mut Input) -> Result<TokenPoint, Unread> {
        let (text, (at, (first, number))) = <(Text, (Moment, (Record, KeyNumber)))>::read(
            alloc, input,
        )?;
        Ok(TokenPoint {
            text,
            at,
            first,
            number,
        })
    }
}

impl Codec for AccountRow {
    ghost use Rattle.ebs_checkpoints.specs.Owned.{IsAccountRow, account_row};
    ghost use Rattle.ebs_checkpoints.specs.inner.Owned.{apart_account_row};

    ghost fits = { IsAccountRow };

    ghost spelled = { account_row };

    ghost apart = { apart_account_row };

    fn write(&self, out: &mut Vec<u8>) -> Result<(), AllocError> {
        self.account.write(out)?;
        self.next_snap.write(out)?;
        self.next_vol.write(out)?;
        self.next_rule.write(out)?;
        self.next_policy.write(out)?;
        self.tokens.write(out)
    }

    fn read(alloc: Global, input: &mut Input) -> Result<AccountRow, Unread> {
        let (account, (next_snap, (next_vol, (next_rule, (next_policy, tokens))))) = <(
            Account,
            (u32, (u32, (u32, (u32, TokenPoints)))),
        )>::read(alloc, input)?;
        Ok(AccountRow {
            account,
            next_snap,
            next_vol,
            next_rule,
            next_policy,
            tokens,
        })
    }
}

impl Codec for VolPoint {
    ghost use Rattle.ebs_checkpoints.specs.Owned.{IsVolPoint, vol_point};
    ghost use Rattle.ebs_checkpoints.specs.inner.Owned.{apart_vol_point};

    ghost fits = { IsVolPoint };

    ghost spelled = { vol_point };

    ghost apart = { apart_vol_point };

    fn write(&self, out: &mut Vec<u8>) -> Result<(), AllocError> {
        self.row.key.write(out)?;
        self.row.size.write(out)?;
        self.row.line.write(out)?;
        self.row.origin.write(out)?;
        self.row.tags.write(out)?;
        self.node.write(out)
    }

    fn read(alloc: Global, input: &mut Input) -> Result<VolPoint, Unread> {
        let (key, (size, (line, (origin, (tags, node))))) = <(
            VolKey,
            (u32, (Line, (Option<SnapKey>, (Tags, u64)))),
        )>::read(alloc, input)?;
        let row = VolRow {
            key,
            size,
            line,
            origin,
            tags,
        };
        Ok(VolPoint { row, node })
    }
}
