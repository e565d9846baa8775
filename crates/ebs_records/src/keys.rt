// Accounts, moments and keys.
use crate::codec::{Codec, Unread};
use crate::input::Input;
use ebs_model::{Account, KeyNumber, Moment, RuleKey, RuleTag, SnapKey, Tag, Text, VolKey};
use std::alloc::{AllocError, Global};

impl Codec for Account {
    ghost use Rattle.ebs_records.specs.Fields.{long, IsAccount};
    ghost use Rattle.ebs_records.specs.inner.Keys.{apart_account};

    ghost fits = { IsAccount };

    ghost spelled = { long };

    ghost apart = { apart_account };

    fn write(&self, out: &mut Vec<u8>) -> Result<(), AllocError> {
        self.number().write(out)
    }

    fn read(alloc: Global, input: &mut Input) -> Result<Account, Unread> {
        let number = u64::read(alloc, input)?;
        if number >= 1_000_000_000_000 {
            return Err(Unread::Malformed);
        }
        Ok(Account::new(number))
    }
}

impl Codec for KeyNumber {
    ghost use Rattle.ebs_records.specs.Fields.{word, IsKeyNumber};
    ghost use Rattle.ebs_records.specs.inner.Keys.{apart_number};

    ghost fits = { IsKeyNumber };

    ghost spelled = { word };

    ghost apart = { apart_number };

    fn write(&self, out: &mut Vec<u8>) -> Result<(), AllocError> {
        self.number().write(out)
    }

    fn read(alloc: Global, input: &mut Input) -> Result<KeyNumber, Unread> {
        let number = u32::read(alloc, input)?;
        if number >= 1 << 28 {
            return Err(Unread::Malformed);
        }
        Ok(KeyNumber::new(number))
    }
}

impl Codec for Moment {
    ghost use Rattle.ebs_records.specs.Fields.{IsMoment, moment};
    ghost use Rattle.ebs_records.specs.inner.Keys.{apart_moment};

    ghost fits = { IsMoment };

    ghost spelled = { moment };

    ghost apart = { apart_moment };

    fn write(&self, out: &mut Vec<u8>) -> Result<(), AllocError> {
        self.second.write(out)
    }

    fn read(alloc: Global, input: &mut Input) -> Result<Moment, Unread> {
        let second = u64::read(alloc, input)?;
        Ok(Moment { second })
    }
}

impl Codec for SnapKey {
    ghost use Rattle.ebs_records.specs.Fields.{IsKey, key};
    ghost use Rattle.ebs_records.specs.inner.Keys.{apart_key};

    ghost fits = { IsKey };

    ghost spelled = { key };

    ghost apart = { apart_key };

    fn write(&self, out: &mut Vec<u8>) -> Result<(), AllocError> {
        self.account.write(out)?;
        self.number.write(out)
    }

    fn read(alloc: Global, input: &mut Input) -> Result<SnapKey, Unread> {
        let (account, number) = <(Account, KeyNumber)>::read(alloc, input)?;
        Ok(SnapKey { account, number })
    }
}

impl Codec for VolKey {
    ghost use Rattle.ebs_records.specs.Fields.{IsVolume, volume};
    ghost use Rattle.ebs_records.specs.inner.Keys.{apart_volume};

    ghost fits = { IsVolume };

    ghost spelled = { volume };

    ghost apart = { apart_volume };

    fn write(&self, out: &mut Vec<u8>) -> Result<(), AllocError> {
        self.account.write(out)?;
        self.number.write(out)
    }

    fn read(alloc: Global, input: &mut Input) -> Result<VolKey, Unread> {
        let (account, number) = <(Account, KeyNumber)>::read(alloc, input)?;
        Ok(VolKey { account, number })
    }
}

impl Codec for RuleKey {
    ghost use Rattle.ebs_records.specs.Fields.{IsRule, rule};
    ghost use Rattle.ebs_records.specs.inner.Keys.{apart_rule};

    ghost fits = { IsRule };

    ghost spelled = { rule };

    ghost apart = { apart_rule };

    fn write(&self, out: &mut Vec<u8>) -> Result<(), AllocError> {
        self.account.write(out)?;
        self.number.write(out)
    }

    fn read(alloc: Global, input: &mut Input) -> Result<RuleKey, Unread> {
        let (account, number) = <(Account, KeyNumber)>::read(alloc, input)?;
        Ok(RuleKey { account, number })
    }
}

impl Codec for Tag {
    ghost use Rattle.ebs_records.specs.Fields.{IsTag, tag};
    ghost use Rattle.ebs_records.specs.inner.Tags.{apart_tag};

    ghost fits = { IsTag };

    ghost spelled = { tag };

    ghost apart = { apart_tag };

    fn write(&self, out: &mut Vec<u8>) -> Result<(), AllocError> {
        self.key.write(out)?;
        self.value.write(out)
    }

    fn read(alloc: Global, input: &mut Input) -> Result<Tag, Unread> {
        let (key, value) = <(Text, Text)>::read(alloc, input)?;
        Ok(Tag { key, value })
    }
}

impl Codec for RuleTag {
    ghost use Rattle.ebs_records.specs.Fields.{IsRuleTag, rule_tag};
    ghost use Rattle.ebs_records.specs.inner.Tags.{apart_rule_tag};

    ghost fits = { IsRuleTag };

    ghost spelled = { rule_tag };

    ghost apart = { apart_rule_tag };

    fn write(&self, out: &mut Vec<u8>) -> Result<(), AllocError> {
        self.key.write(out)?;
        self.value.write(out)
    }

    fn read(alloc: Global, input: &mut Input) -> Result<RuleTag, Unread> {
        let (key, value) = <(Text, Option<Text>)>::read(alloc, input)?;
        Ok(RuleTag { key, value })
    }
}
