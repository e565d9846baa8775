// Why a command did nothing.
use ebs_model::RuleRefusal;
use std::alloc::AllocError;

/// Why a command did nothing.
#[derive(Debug, Drop)]
pub enum RuleFailure {
    Refused(RuleRefusal),
    Memory,
}

impl From<AllocError> for RuleFailure {
    ghost use Rattle.std.specs.Prelude.{◌≡◌};
    ghost use Rattle.ebs_bin.specs.declared.failure.RuleFailure.TheVariants.{Memory};

    ghost from_gives = { λ e failure. failure ≡ Memory };

    fn from(_: AllocError) -> RuleFailure {
        RuleFailure::Memory
    }
}
