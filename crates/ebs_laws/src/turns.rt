// What a step says of calls that are accepted.
ghost use Rattle.ebs_laws.specs.TurnLaws.{StepAcceptsOrRefuses, AcceptedIsStep, AcceptedIsAnswered, AcceptedIsDecided, AcceptedIsCounted};

/// A step accepts its call or refuses it, and not both. An accepted change that repeats no start and no creation is what the rows decided,
/// and counts one more.
pub fn step_accepts_or_refuses()
    ensures either { StepAcceptsOrRefuses }
    ensures accepted { AcceptedIsStep }
    ensures answered { AcceptedIsAnswered }
    ensures decided { AcceptedIsDecided }
    ensures counted { AcceptedIsCounted }
{}
