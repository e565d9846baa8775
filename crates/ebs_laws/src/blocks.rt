// What stands at an index of a snapshot.
ghost use Rattle.ebs_laws.specs.BlockLaws.{PutLeavesBytes, OtherCallKeepsBytes, ChildHasBytes, GetAnswersBytes};

/// The bytes of an accepted put stand at their index until another put there is accepted. An upload with a parent begins,
/// by the call that starts it, with the bytes that its parent has then. A get answers the bytes that stand there, or is refused.
pub fn bytes_stay_until_put()
    ensures put { PutLeavesBytes }
    ensures each_call { OtherCallKeepsBytes }
    ensures child { ChildHasBytes }
    ensures get { GetAnswersBytes }
{}
