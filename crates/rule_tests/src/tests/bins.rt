//! Worked cases of rules.
ghost use Rattle.std.specs.Prelude.{◌≤◌, ◌^◌};

use super::helpers::{at, same};
use ebs_bin::{RuleFailure, Rules};
use ebs_model::{
    Account, KeyNumber, Moment, RuleCommand, RuleKey, RuleLock, RuleRefusal, RuleTag, RuleTags,
    Tag, Tags, Text, bin_end, rule_lock_at,
};
use std::alloc::{AllocError, Global};
use std::process::Abort;
use std::test::Fail;

/// A command on a rule, which is named by its number.
#[derive(Clone, Copy)]
enum Step {
    /// Days, a resource tag where there is one, and a delay where it is locked at once.
    Create(u32, Option<(&'static str, Option<&'static str>)>, Option<u32>),
    /// Days.
    Update(u8, u32),
    Delete(u8),
    /// The delay.
    Lock(u8, u32),
    Unlock(u8),
}

/// A step, when it is taken, and what it is refused by.
type Given = (Step, u64, Option<RuleRefusal>);

/// The tag of a snapshot where it has one, and how long the snapshot stays in the bin.
type Kept = (Option<(&'static str, &'static str)>, Option<u32>);

fn text(alloc: Global, word: &str) -> Result<Text, AllocError> {
    Ok(Text::from_string(String::from_str(alloc, word)?))
}

fn value_of(alloc: Global, word: Option<&str>) -> Result<Option<Text>, AllocError> {
    match word {
        Some(word) => Ok(Some(text(alloc, word)?)),
        None => Ok(None),
    }
}

fn rule_tags(alloc: Global, key: &str, value: Option<&str>) -> Result<RuleTags, AllocError> {
    let key = text(alloc, key)?;
    let value = value_of(alloc, value)?;
    Ok(RuleTags::from_vec(vec![in alloc; RuleTag { key, value }]?))
}

fn tags(alloc: Global, key: &str, value: &str) -> Result<Tags, AllocError> {
    let key = text(alloc, key)?;
    let value = text(alloc, value)?;
    Ok(Tags::from_vec(vec![in alloc; Tag { key, value }]?))
}

fn key_of(number: u8) -> RuleKey {
    RuleKey {
        account: Account::new(1),
        number: KeyNumber::new(u32::from(number)),
    }
}

fn create(days: u32, tags: RuleTags, delay: Option<u32>) -> RuleCommand {
    RuleCommand::Create {
        days,
        tags,
        description: None,
        delay,
    }
}

fn update(key: RuleKey, days: u32) -> RuleCommand {
    RuleCommand::Update {
        key,
        days: Some(days),
        tags: None,
        description: None,
    }
}

fn command(alloc: Global, step: Step) -> Result<RuleCommand, AllocError> {
    Ok(match step {
        Step::Create(days, None, delay) => create(days, RuleTags::new(alloc), delay),
        Step::Create(days, Some((key, value)), delay) => {
            create(days, rule_tags(alloc, key, value)?, delay)
        }
        Step::Update(number, days) => update(key_of(number), days),
        Step::Delete(number) => RuleCommand::Delete {
            key: key_of(number),
        },
        Step::Lock(number, delay) => RuleCommand::Lock {
            key: key_of(number),
            delay,
        },
        Step::Unlock(number) => RuleCommand::Unlock {
            key: key_of(number),
        },
    })
}

/// What the command is refused by, or nothing where it is done.
fn refusal(
    rules: &mut Rules,
    command: &RuleCommand,
    second: u64,
) -> Result<Option<RuleRefusal>, AllocError> {
    if second > 1 << 36 {
        return Ok(None);
    }
    match rules.decide(command, Moment { second }) {
        Ok(change) => {
            rules.prepare(&change)?;
            rules.commit(change);
            Ok(None)
        }
        Err(RuleFailure::Refused(refusal)) => Ok(Some(refusal)),
        Err(RuleFailure::Memory) => Ok(Some(RuleRefusal::NotFound)),
    }
}

fn taken(
    alloc: Global,
    rules: &mut Rules,
    step: Step,
    second: u64,
) -> Result<Option<RuleRefusal>, AllocError> {
    let command = command(alloc, step)?;
    let refused = refusal(rules, &command, second);
    drop(command);
    refused
}

fn assert_given(
    rt: &impl Abort,
    alloc: Global,
    rules: &mut Rules,
    steps: &[Given],
) -> Result<(), AllocError> {
    for (step, second, refused) in steps {
        let found = taken(alloc, rules, *step, *second)?;
        same(rt, (*second, found), (*second, *refused));
    }
    Ok(())
}

/// How long a snapshot stays in the bin.
fn kept(
    alloc: Global,
    rules: &Rules,
    tag: Option<(&str, &str)>,
) -> Result<Option<u32>, AllocError> {
    let tags = match tag {
        Some((key, value)) => tags(alloc, key, value)?,
        None => Tags::new(alloc),
    };
    let days = rules.retention_for(&tags);
    drop(tags);
    Ok(days)
}

fn assert_kept(
    rt: &impl Abort,
    alloc: Global,
    rules: &Rules,
    rows: &[Kept],
) -> Result<(), AllocError> {
    for (tag, days) in rows {
        same(rt, (*tag, kept(alloc, rules, *tag)?), (*tag, *days));
    }
    Ok(())
}

/// How many rules there are, the next number, and the first rule from the number on.
type Numbers = (usize, u32, Option<RuleKey>);

fn numbers(rules: &Rules, start: u32) -> Numbers {
    let key = match rules.next_rule(start) {
        Some(rule) => Some(rule.key),
        None => None,
    };
    (rules.len(), rules.next_number(), key)
}

fn new_rules(alloc: Global, first: u32) -> Rules
    requires { first ≤ 2 ^ 28 }
{
    Rules::new(alloc, Account::new(1), first)
}

/// Steps of an account without rules, and what then stays in the bin.
fn check(rt: &impl Abort, alloc: Global, steps: &[Given], rows: &[Kept]) -> Result<(), Fail> {
    let mut rules = new_rules(alloc, 0);
    let given = assert_given(rt, alloc, &mut rules, steps);
    let kept = assert_kept(rt, alloc, &rules, rows);
    drop(rules);
    given?;
    Ok(kept?)
}

const TEAM: Step = Step::Create(7, Some(("team", None)), None);

const TEAM_KEPT: [Kept; 2] = [
    (Some(("team", "web")), Some(7)),
    (Some(("site", "web")), None),
];

const LOCKED_TEAM: [Given; 2] = [
    (TEAM, 1, None),
    (Step::Lock(0, 7), 4, Some(RuleRefusal::TagLevel)),
];

#[test]
fn a_resource_tag_without_a_value(rt: HostRuntime) -> Result<(), Fail> {
    check(&rt, rt.alloc(), &[(TEAM, 1, None)], &TEAM_KEPT)?;
    check(&rt, rt.alloc(), &LOCKED_TEAM, &TEAM_KEPT)
}

const TWO: [Given; 2] = [
    (Step::Create(30, Some(("team", Some("web"))), None), 1, None),
    (Step::Create(14, None, None), 1, None),
];

const LONGEST: [Kept; 2] = [
    (Some(("team", "web")), Some(30)),
    (Some(("team", "db")), Some(14)),
];

#[test]
fn the_longest_that_matches(rt: HostRuntime) -> Result<(), Fail> {
    check(&rt, rt.alloc(), &TWO, &LONGEST)
}

const LOCKED: Option<RuleRefusal> = Some(RuleRefusal::Locked);

const AROUND_A_LOCK: [Given; 9] = [
    (Step::Create(30, None, Some(7)), 1000, None),
    (Step::Delete(0), 1001, LOCKED),
    (Step::Lock(0, 30), 1002, LOCKED),
    (Step::Unlock(0), 2000, None),
    (Step::Unlock(0), 2001, LOCKED),
    (Step::Update(0, 9), 606799, LOCKED),
    (Step::Update(0, 9), 606800, None),
    (Step::Unlock(0), 606800, Some(RuleRefusal::Unlocked)),
    (Step::Lock(0, 30), 606801, None),
];

#[test]
fn a_lock_lasts_for_its_delay(rt: HostRuntime) -> Result<(), Fail> {
    check(&rt, rt.alloc(), &AROUND_A_LOCK, &[(None, Some(9))])
}

#[test]
fn pending_locks_and_ends(rt: HostRuntime) {
    let end = bin_end(at(1000), 7);
    same(&rt, end, at(605800));
    let pending = RuleLock::Pending { end };
    same(&rt, rule_lock_at(pending, at(605799)), pending);
    same(&rt, rule_lock_at(pending, end), RuleLock::Unlocked);
}

/// A rule is made fifty times.
fn assert_fifty(rt: &impl Abort, alloc: Global, rules: &mut Rules) -> Result<(), AllocError> {
    for second in 0..50 {
        let refused = taken(alloc, rules, ONE_DAY, second)?;
        same(rt, (second, refused), (second, None));
    }
    Ok(())
}

const ONE_DAY: Step = Step::Create(1, None, None);

const BEYOND_THE_QUOTA: [Given; 4] = [
    (ONE_DAY, 60, Some(RuleRefusal::TooMany)),
    (Step::Delete(49), 60, None),
    (Step::Delete(49), 60, Some(RuleRefusal::NotFound)),
    (ONE_DAY, 60, None),
];

#[test]
fn numbers_and_the_quota(rt: HostRuntime) -> Result<(), Fail> {
    let mut rules = new_rules(rt.alloc(), 0);
    let fifty = assert_fifty(&rt, rt.alloc(), &mut rules);
    let given = assert_given(&rt, rt.alloc(), &mut rules, &BEYOND_THE_QUOTA);
    let found = numbers(&rules, 49);
    let is_gone = rules.find(&key_of(49)).is_none();
    drop(rules);
    fifty?;
    given?;
    same(&rt, found, (50, 51, Some(key_of(50))));
    same(&rt, is_gone, true);
    Ok(())
}

const NO_NUMBER: [Given; 1] = [(ONE_DAY, 1, Some(RuleRefusal::NoNumber))];

#[test]
fn numbers_are_spent(rt: HostRuntime) -> Result<(), Fail> {
    let mut rules = new_rules(rt.alloc(), 1 << 28);
    let given = assert_given(&rt, rt.alloc(), &mut rules, &NO_NUMBER);
    let found = numbers(&rules, 0);
    drop(rules);
    given?;
    same(&rt, found, (0, 1 << 28, None));
    Ok(())
}
