use ebs_model::{
    Account, Call, Failure, LockMode, PolicyKey, Refusal, Request, Retain, RuleKey, RuleTag,
    RuleTags, SnapKey, Tag, Term, Text, VolKey,
};
use std::alloc::{AllocError, Global};

mod blocks;
mod paths;
mod player;
mod policies;
mod rows;
mod rules;
mod shown;
mod shown_policies;
mod shown_rules;
mod starts;
mod volumes;
