ghost use Rattle.std.specs.Prelude.{◌≤◌};

use crate::layout::{count_at, head, size};
use crate::places::{INSTRUCTION_SIZE, KNOBS_PLACE, SIDE_SIZE, SIDES_START, TARGET_SIZE};
use crate::reason::Refusal;

/// How many knobs, instructions and targets a record has, and so where its parts stand.
#[derive(Clone, Copy, PartialEq, Eq, Debug)]
pub(crate) struct Counts {
    pub(crate) knobs: usize,
    pub(crate) instructions: usize,
    pub(crate) targets: usize,
    ghost few_knobs: { knobs ≤ 4 },
    ghost few_instructions: { instructions ≤ 64 },
    ghost few_targets: { targets ≤ 8 },
}

impl Counts {
    ghost use Rattle.std.specs.Prelude.{◌≡◌};
    ghost use Rattle.records.specs.Faults.{unless, mapped};
    ghost use Rattle.records.specs.Layouts.{counts_in, layout_fault};
    ghost use Rattle.records.specs.Counted.{counted};
    ghost use Rattle.records.specs.Places.{program_place, program_start, targets_place, targets_start, end_place};

    /// Where the instruction count stands.
    fn program_place(&self) -> usize
        ensures { result ≡ program_place self.now.knobs }
    {
        SIDES_START + SIDE_SIZE * self.knobs
    }

    /// Where the instructions start.
    pub(crate) fn program_start(&self) -> usize
        ensures { result ≡ program_start self.now.knobs }
    {
        self.program_place() + 1
    }

    /// Where the target count stands.
    fn targets_place(&self) -> usize
        ensures { result ≡ targets_place self.now.knobs self.now.instructions }
    {
        self.program_start() + INSTRUCTION_SIZE * self.instructions
    }

    /// Where the targets start.
    pub(crate) fn targets_start(&self) -> usize
        ensures { result ≡ targets_start self.now.knobs self.now.instructions }
    {
        self.targets_place() + 1
    }

    /// Where the record ends.
    fn end_place(&self) -> usize
        ensures { result ≡ end_place self.now.knobs self.now.instructions self.now.targets }
    {
        self.targets_start() + TARGET_SIZE * self.targets
    }

    /// The counts of a record whose head, counts and size are right.
    pub(crate) fn read(bytes: &[u8]) -> Result<Counts, Refusal>
        ensures { mapped counted result ≡ unless (layout_fault bytes.now) (counts_in bytes.now) }
    {
        head(bytes)?;
        // where a count stands depends on those before it, so they are filled in one by one
        let mut counts = Counts {
            knobs: count_at(bytes, KNOBS_PLACE, 4)?,
            instructions: 0,
            targets: 0,
        };
        counts.instructions = count_at(bytes, counts.program_place(), 64)?;
        counts.targets = count_at(bytes, counts.targets_place(), 8)?;
        size(bytes, counts.end_place())?;
        Ok(counts)
    }
}
