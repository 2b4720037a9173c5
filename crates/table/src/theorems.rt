//! The theorems of the check's answer.
ghost use Rattle.table.specs.Theorems.{VerdictIsOne, OkAccepts, OkWithoutCause, AcceptedIsCanonical, ConflictIsNotLL, AnswersNotLL};

/// The check can give one answer only. It is Ok just when nothing is wrong, and just when no cause applies; and that is so just when the file holds
/// a sound grammar and its canonical LL(k) collection with a deterministic parser, in an order in which the states can be found. Where no cause
/// applies before, the answer is that two rules fit one word just when the grammar is not LL(k). The function does nothing else than ask for the proofs.
pub fn verdicts_stand()
    ensures { VerdictIsOne × OkAccepts × OkWithoutCause × AcceptedIsCanonical × ConflictIsNotLL × AnswersNotLL }
{}
