// How a member is read.
ghost use Rattle.ebs_members.specs.inner.Outcome.{Reads, IsExact};
ghost use Rattle.ebs_members.specs.Sources.{need};

use crate::kinds::{Kind, OwnedKind};
use crate::source::Source;
use ebs_model::{Failure, Refusal, Text};
use std::alloc::{AllocError, Global};

/// Why a message isn't a call. A member's name stays as it is in the code, so that a refusal takes no memory.
#[derive(Clone, Copy)]
pub enum Wrong<'n> {
    Member(&'n str),
    NoSuchCall,
    Memory,
}

/// What is read, or why the message isn't a call.
pub type Read<'n, T> = Result<T, Wrong<'n>>;

impl<'n> From<AllocError> for Wrong<'n> {
    ghost use Rattle.std.specs.Prelude.{◌≡◌};
    ghost use Rattle.ebs_members.specs.declared.members.Wrong.TheVariants.{Memory};

    ghost from_gives = { λ e wrong. wrong ≡ Memory };

    fn from(_: AllocError) -> Wrong<'n> {
        Wrong::Memory
    }
}

impl<'n> Wrong<'n> {
    ghost use Rattle.ebs_members.specs.inner.Outcome.{IsHandedOut};

    /// The failure that is handed out. A member's name becomes a text here alone.
    pub fn handed_out(self, alloc: Global) -> Failure
        ensures { IsHandedOut self.entry result }
    {
        match self {
            Wrong::Member(name) => match String::from_str(alloc, name) {
                Ok(name) => Failure::Refused(Refusal::BadParameter(Text::from_string(name))),
                Err(AllocError) => Failure::Memory,
            },
            Wrong::NoSuchCall => Failure::Refused(Refusal::NoSuchCall),
            Wrong::Memory => Failure::Memory,
        }
    }
}

impl<'a> Source<'a> {
    ghost use Rattle.std.specs.Prelude.{IfErr};
    ghost use Rattle.ebs_members.specs.inner.Outcome.{Reads, IsExact, RanOut};
    ghost use Rattle.ebs_members.specs.inner.Memory.{IsThere};
    ghost use Rattle.ebs_members.specs.inner.Sources.{found as found_in};
    ghost use Rattle.ebs_members.specs.Sources.{required, optional};

    /// A member that must be there.
    pub fn required<'n, K: Kind>(&self, name: &'n str, kind: K) -> Read<'n, K::Value>
        ensures value { Reads (required (found_in self.now) name.now (K.reads kind)) result }
        ensures exact { IsExact result }
    {
        need(name, self.find(name).and_then(|found| kind.read(&found)))
    }

    /// A member that may be absent.
    pub fn optional<'n, K: Kind>(&self, name: &'n str, kind: K) -> Read<'n, Option<K::Value>>
        ensures value { Reads (optional (found_in self.now) name.now (K.reads kind)) result }
        ensures exact { IsExact result }
    {
        match self.find(name) {
            Some(found) => Ok(Some(need(name, kind.read(&found))?)),
            None => Ok(None),
        }
    }

    /// A member that may be absent, and whose value takes memory.
    pub fn optional_owned<'n, K: OwnedKind>(
        &self,
        alloc: Global,
        name: &'n str,
        kind: K,
    ) -> Read<'n, Option<K::Value>>
        ensures value { Reads (optional (found_in self.now) name.now (K.reads kind)) result }
        ensures memory { IfErr result (λ e. RanOut e → IsThere (found_in self.now name.now)) }
    {
        match self.find(name) {
            Some(found) => Ok(Some(need(name, kind.read(alloc, &found)?)?)),
            None => Ok(None),
        }
    }

    /// A member that must be there, and whose value takes memory.
    pub fn required_owned<'n, K: OwnedKind>(
        &self,
        alloc: Global,
        name: &'n str,
        kind: K,
    ) -> Read<'n, K::Value>
        ensures value { Reads (required (found_in self.now) name.now (K.reads kind)) result }
        ensures memory { IfErr result (λ e. RanOut e → IsThere (found_in self.now name.now)) }
    {
        need(name, self.optional_owned(alloc, name, kind)?)
    }
}

/// The value, or a refusal by the member's name.
pub fn need<'n, T: Drop>(name: &'n str, found: Option<T>) -> Read<'n, T>
    ensures value { Reads (need name.now found) result }
    ensures exact { IsExact result }
{
    found.ok_or(Wrong::Member(name))
}
