ghost use Rattle.std.specs.Prelude.{◌≡◌, IfOk};
ghost use Rattle.records.specs.Broken.{Told};
ghost use Rattle.records.specs.Encoding.{Exact};
ghost use Rattle.records.specs.Faults.{mapped};
ghost use Rattle.jobs.specs.Meaning.{RegistersBounded};
ghost use Rattle.jobs.specs.Reading.{JobBroken, Sound, content_of, verdict};

use crate::job::Job;
use crate::registers::evaluate;
use ranges::plain::Plain;
use ranges::row::Row;
use records::fields::Fields;
use records::reason::{Reason, Refusal};

impl Job {
    /// The job of a record, or why the record is refused, and where.
    pub fn read(bytes: &[u8]) -> Result<Job, Refusal>
        ensures told { mapped content_of result ≡ verdict bytes.now }
        ensures exact { Exact Sound bytes.now content_of result }
        ensures first { Told (JobBroken bytes.now) result }
        ensures bounded { IfOk result (λ j. RegistersBounded (content_of j)) }
    {
        let fields = Fields::read(bytes)?;
        // fixed memory: a row for each instruction that a job may have
        let mut rows = [Row::default(); 64];
        // only here does a register that is too large become a refusal, so no conversion stands for it
        match evaluate::<Plain>(&fields, &fields.start, &mut rows) {
            Ok(()) => Ok(Job { fields }),
            Err(e) => Err(Refusal::new(Reason::TooLarge, e.register)),
        }
    }
}
