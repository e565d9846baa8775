// Which rules match a snapshot, and which of them has the most days.
ghost use Rattle.std.specs.Prelude.{◌≡◌, map};
ghost use Rattle.ebs_model.specs.Rules as rules;

use ebs_model::{Rule, RuleTag, RuleTags, Tag, Tags, Text};
use ebs_tables::Filled;

/// Whether a rule with these resource tags matches a snapshot with those tags.
pub fn matches(wanted: &RuleTags, tags: &Tags) -> bool
    ensures { result ≡ rules.matches wanted.now tags.now }
{
    wanted.len() == 0 || has_one_of(wanted.as_slice(), tags.as_slice())
}

fn has_one_of(wanted: &[RuleTag], tags: &[Tag]) -> bool
    ensures { result ≡ rules.has_one_of wanted.now tags.now }
{
    wanted.iter().any(|one| has(one, tags))
}

fn has(wanted: &RuleTag, tags: &[Tag]) -> bool
    ensures { result ≡ rules.has wanted.now tags.now }
{
    tags.iter().any(|tag| is_wanted(wanted, tag))
}

fn is_wanted(wanted: &RuleTag, tag: &Tag) -> bool
    ensures { result ≡ rules.is_wanted wanted.now tag.now }
{
    wanted.key == tag.key && is_value(&wanted.value, &tag.value)
}

fn is_value(wanted: &Option<Text>, value: &Text) -> bool
    ensures { result ≡ rules.is_value wanted.now value.now }
{
    match wanted {
        None => true,
        Some(wanted) => *wanted == *value,
    }
}

/// The most days of those that match.
pub(crate) fn longest(found: Filled<'_, u32, Rule>, tags: &Tags) -> Option<u32>
    ensures { result ≡ rules.longest tags.now (map (λ e. e.1) found.entry) }
{
    let mut most = None;
    for (_, rule) in found {
        if matches(&rule.tags, tags) {
            most = longer(most, rule.days);
        }
    }
    most
}

fn longer(most: Option<u32>, days: u32) -> Option<u32>
    ensures { result ≡ rules.longer most days }
{
    match most {
        None => Some(days),
        Some(most) => Some(most.max(days)),
    }
}
