// Which answers a machine gives.
ghost use Rattle.ebs_lawful.specs.OwnAnswers.{CallsAnswerOwn, StepsAnswerOwn};

/// A machine answers no call by want of memory, E17, E18 or E19, nor that turns are spent, however the digests of blocks are found: these are
/// told by what stands around it.
pub fn answers_are_own()
    ensures call { CallsAnswerOwn }
    ensures step { StepsAnswerOwn }
{}
