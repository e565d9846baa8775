// What the texts of answers tell.
ghost use Rattle.std.specs.Prelude.{◌≡◌, ◌++◌, List, [], ℕ, codes};
ghost use Rattle.ebs_model.specs.declared.answer.Refusal.{Refusal};
ghost use Rattle.ebs_model.specs.declared.answer.Answer.{Answer};
ghost use Rattle.ebs_model.specs.declared.answer.Answer.TheVariants.{Refused, Memory};
ghost use Rattle.ebs_print.specs.Printed.{text_of};
ghost use Rattle.ebs_print.specs.inner.Splits.{AnswersSplit, ListsSplit};

/// Neither a refusal nor want of memory is told by status 200.
pub fn faults_are_told()
    ensures refused { (refusal : Refusal) (rest : List ℕ) → text_of (Refused refusal) ≡ codes "HTTP/1.1 200 OK" ++ rest → ⊥ }
    ensures memory { (rest : List ℕ) → text_of Memory ≡ codes "HTTP/1.1 200 OK" ++ rest → ⊥ }
{}

/// Bytes begin with the text of one answer at most, so no text is a proper front of another's, and what is written falls
/// into answers in one way.
pub fn answers_split()
    ensures one { AnswersSplit }
    ensures lists { ListsSplit }
    ensures some { (answer : Answer) → text_of answer ≡ [] → ⊥ }
{}
