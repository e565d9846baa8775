// Rules of the Recycle Bin and lifecycle policies.
use crate::codec::{Codec, Unread};
use crate::input::Input;
use ebs_model::{Moment, Policy, PolicyKey, Retain, Rule, RuleKey, RuleLock, RuleTags, Tags, Text};
use std::alloc::{AllocError, Global};

impl Codec for Rule {
    ghost use Rattle.ebs_records.specs.inner.Policies.{apart_rule_row};
    ghost use Rattle.ebs_records.specs.Policies.{IsRuleRow, rule_row};

    ghost fits = { IsRuleRow };

    ghost spelled = { rule_row };

    ghost apart = { apart_rule_row };

    fn write(&self, out: &mut Vec<u8>) -> Result<(), AllocError> {
        self.key.write(out)?;
        self.days.write(out)?;
        self.tags.write(out)?;
        self.description.write(out)?;
        self.lock.write(out)
    }

    fn read(alloc: Global, input: &mut Input) -> Result<Rule, Unread> {
        let (key, (days, (tags, (description, lock)))) = <(
            RuleKey,
            (u32, (RuleTags, (Option<Text>, RuleLock))),
        )>::read(alloc, input)?;
        Ok(Rule {
            key,
            days,
            tags,
            description,
            lock,
        })
    }
}

impl Codec for Policy {
    ghost use Rattle.ebs_records.specs.inner.Policies.{apart_policy};
    ghost use Rattle.ebs_records.specs.Policies.{IsPolicy, policy};

    ghost fits = { IsPolicy };

    ghost spelled = { policy };

    ghost apart = { apart_policy };

    fn write(&self, out: &mut Vec<u8>) -> Result<(), AllocError> {
        self.key.write(out)?;
        self.targets.write(out)?;
        self.hours.write(out)?;
        self.at.write(out)?;
        self.retain.write(out)?;
        self.add.write(out)?;
        self.last.write(out)
    }

    fn read(alloc: Global, input: &mut Input) -> Result<Policy, Unread> {
        let (key, (targets, (hours, (at, (retain, (add, last)))))) = <(
            PolicyKey,
            (Tags, (u32, (u32, (Retain, (Tags, Moment))))),
        )>::read(alloc, input)?;
        Ok(Policy {
            key,
            targets,
            hours,
            at,
            retain,
            add,
            last,
        })
    }
}
