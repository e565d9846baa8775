// What a client token is worth.
ghost use Rattle.ebs_laws.specs.TokenLaws.{StartActsOnce, OtherStartConflicts, StartKeepsToken, TokensStay, OnlyStartsUseTokens, RepeatTellsFirst, RepeatChangesNothing, RefusedUsesNoToken};

/// A start with a client token acts once: whatever is called in between by whomever, the same call is answered as the first
/// time, makes nothing and changes nothing but by time, also where the snapshot is gone. Another start of the account with that
/// token is E11, and changes nothing but by time.
pub fn start_acts_once()
    ensures once { StartActsOnce }
    ensures conflict { OtherStartConflicts }
    ensures again { RepeatTellsFirst }
    ensures nothing { RepeatChangesNothing }
{}

/// A client token is kept with the start or the creation that it was used for, for good; by that alone, and by no refused call.
pub fn tokens_are_kept()
    ensures kept { StartKeepsToken }
    ensures stays { TokensStay }
    ensures only { OnlyStartsUseTokens }
    ensures refused { RefusedUsesNoToken }
{}
