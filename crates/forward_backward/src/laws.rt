ghost use Rattle.forward_backward.specs.Narrowing.{NarrowingKeeps};

/// Narrowing the operands of an instruction loses no numbers that fit it, by any narrowing kind.
pub fn narrowing_loses_nothing()
    ensures { NarrowingKeeps }
{}
