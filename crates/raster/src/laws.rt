ghost use Rattle.raster.specs.RasterLaws.{HeldSteps, SteppedAnswers};

/// A raster range holds exactly its low end and the whole steps from there up to its high end.
pub fn raster_holds_steps()
    ensures { HeldSteps }
{}

/// Each operation takes whole steps of its operands to whole steps of its answer.
pub fn raster_answers_are_stepped()
    ensures { SteppedAnswers }
{}
