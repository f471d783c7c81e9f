ghost use Rattle.std.specs.Prelude.{◌≡◌, length};
ghost use Rattle.boxes.specs.Views.{sides_of};
ghost use Rattle.ranges.specs.Plains.{plain_kind};
ghost use Rattle.jobs.specs.Registers.{program_of, registers};

use records::fields::Fields;
use std::fmt;

/// A job: fields that keep their rules, and whose registers all have a plain range over the start
/// box within the bound.
// There is no equality, as for `Table`.
#[derive(Clone, Copy)]
pub struct Job {
    pub fields: Fields,
    ghost bounded: { length (registers plain_kind (program_of fields) (sides_of fields.start)) ≡ length (program_of fields) },
}

impl Job {
    ghost use Rattle.boxes.specs.Boxes.{In, Numbered, count};
    ghost use Rattle.jobs.specs.Reading.{content_of};

    /// How many knobs the job has.
    pub fn knobs(&self) -> usize
        ensures { result ≡ length (content_of self.now).sides }
    {
        self.fields.start.knobs()
    }

    /// How many instructions the job has.
    pub fn instructions(&self) -> usize
        ensures { result ≡ length (content_of self.now).program }
    {
        self.fields.program.len()
    }

    /// How many targets the job has.
    pub fn targets(&self) -> usize
        ensures { result ≡ length (content_of self.now).targets }
    {
        self.fields.targets.len()
    }

    /// How many settings the start box has.
    pub fn settings(&self) -> u64
        ensures value { result ≡ count (content_of self.now).sides }
        ensures settings { Numbered result (In (content_of self.now).sides) }
    {
        self.fields.start.count()
    }
}

impl fmt::Display for Job {
    ghost use Rattle.std.specs.Prelude.{Some};
    ghost use Rattle.jobs.specs.Reading.{content_of};
    ghost use Rattle.jobs.specs.Words.{counts_text};

    ghost output = { λ job. Some (counts_text (content_of job)) };

    fn fmt<W: fmt::Write>(&self, f: &mut fmt::Formatter<W>) -> fmt::Result {
        let knobs = self.knobs();
        let instructions = self.instructions();
        let targets = self.targets();
        let settings = self.settings();
        write!(
            f,
            "knobs {knobs} instructions {instructions} targets {targets} settings {settings}"
        )
    }
}
