ghost use Rattle.ranges.specs.PlainLaws.{GrowingAnswers, LeastAnswers};

/// Each answer of the plain range is the least plain range that holds every result.
pub fn plain_answers_are_least()
    ensures { LeastAnswers }
{}

/// Operands within larger ones give answers within theirs, and within the bound where theirs are.
pub fn plain_answers_grow()
    ensures { GrowingAnswers }
{}
