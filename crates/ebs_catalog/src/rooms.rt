// What a change takes.
ghost use Rattle.std.specs.Prelude.{◌≡◌, None};

use crate::rows::{NewToken, SnapRows};
use ebs_bin::Rules;
use ebs_model::RuleChange;

/// What a change takes: the client token that it keeps, what becomes of its account's rules, and the rows that a run of a
/// policy makes.
#[derive(Debug, Drop)]
pub struct Room {
    pub token: Option<NewToken>,
    pub rules: Option<RuleRoom>,
    pub run: Option<SnapRows>,
}

/// What becomes of an account's rules, with the rules of an account that has none yet.
#[derive(Debug, Drop)]
pub struct RuleRoom {
    pub change: RuleChange,
    pub fresh: Option<Rules>,
}

impl Room {
    /// That of a change that takes none.
    pub fn none() -> Self
        ensures token { result.token ≡ None }
        ensures rules { result.rules ≡ None }
        ensures run { result.run ≡ None }
    {
        Room {
            token: None,
            rules: None,
            run: None,
        }
    }
}
