ghost use Rattle.std.specs.Prelude.{◌≡◌};
ghost use Rattle.records.specs.Faults.{mapped};
ghost use Rattle.records.specs.Verdicts.{content, verdict};
ghost use Rattle.records.specs.Rules.{Keeps};
ghost use Rattle.records.specs.Encoding.{Exact};
ghost use Rattle.records.specs.Broken.{Broken, Told};

use crate::fields::Fields;
use crate::reason::Refusal;
use crate::record::Record;

impl Fields {
    /// What a job record says, or why the record is refused and where.
    pub fn read(bytes: &[u8]) -> Result<Fields, Refusal>
        ensures told { mapped content result ≡ verdict bytes.now }
        ensures exact { Exact Keeps bytes.now content result }
        ensures first { Told (Broken bytes.now) result }
    {
        Record::new(bytes)?.fields()
    }
}
