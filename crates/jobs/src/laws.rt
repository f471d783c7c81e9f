ghost use Rattle.jobs.specs.Meaning.{OneSolution};

/// The values of a program's registers are what its instructions say, and nothing else is.
pub fn one_solution()
    ensures { OneSolution }
{}
