ghost use Rattle.std.specs.Prelude.{◌≡◌, ◌≤◌, length};
ghost use Rattle.records.specs.Counted.{ends_where};

use crate::bytes::read_u16;
use crate::counts::Counts;
use crate::fields::Fields;
use crate::instruction::Instruction;
use crate::items::{read_instruction, read_side, read_target};
use crate::places::{INSTRUCTION_SIZE, LIMIT_PLACE, SIDE_SIZE, SIDES_START, TARGET_SIZE};
use crate::reason::{Reason, Refusal};
use crate::target::Target;
use boxes::region::Region;
use boxes::side::Side;
use tables::table::Table;

/// The bytes of a record whose head, counts and size are right.
// There is no equality, since no two are ever met.
#[derive(Clone, Copy)]
pub(crate) struct Record<'a> {
    bytes: &'a [u8],
    counts: Counts,
    ghost some_knobs: { 1 ≤ counts.knobs },
    ghost some_instructions: { 1 ≤ counts.instructions },
    ghost some_targets: { 1 ≤ counts.targets },
    ghost ends: { ends_where counts ≡ length bytes.now },
}

impl<'a> Record<'a> {
    ghost use Rattle.std.specs.Prelude.{map, IfOk};
    ghost use Rattle.tables.specs.Tables.{entries};
    ghost use Rattle.boxes.specs.Views.{ends_of};
    ghost use Rattle.records.specs.Numbers.{nat16};
    ghost use Rattle.records.specs.Places.{limit_place};
    ghost use Rattle.records.specs.Faults.{unless, mapped};
    ghost use Rattle.records.specs.Counted.{counted};
    ghost use Rattle.records.specs.Layouts.{counts_in, layout_fault};
    ghost use Rattle.records.specs.Verdicts.{limit_fault, sides_fault, sides_read, program_fault, program_read, targets_fault, targets_read, field_fault, content_in, content};

    /// The record in these bytes.
    pub(crate) fn new(bytes: &'a [u8]) -> Result<Record<'a>, Refusal>
        ensures counts { mapped (λ r. counted r.counts) result ≡ unless (layout_fault bytes.now) (counts_in bytes.now) }
        ensures bytes { IfOk result (λ r. r.bytes.now ≡ bytes.now) }
    {
        let counts = Counts::read(bytes)?;
        Ok(Record { bytes, counts })
    }

    /// The limit.
    fn limit(&self) -> Result<u16, Refusal>
        ensures { result ≡ unless (limit_fault self.now.bytes.now) (nat16 self.now.bytes.now limit_place) }
    {
        let limit = read_u16(self.bytes, LIMIT_PLACE);
        if limit == 0 || limit > 32_768 {
            return Err(Refusal::new(Reason::BadField, LIMIT_PLACE));
        }
        Ok(limit)
    }

    /// The sides of the start box, up to the first with a fault.
    fn sides(&self) -> Result<Table<Side, 4>, Refusal>
        ensures { mapped (λ xs. map ends_of (entries xs)) result ≡ unless (sides_fault self.now.bytes.now (counted self.now.counts)) (sides_read self.now.bytes.now (counted self.now.counts)) }
    {
        let blank = Side { low: 0, high: 0 };
        Table::try_from_fn(blank, self.counts.knobs, |k| {
            read_side(self.bytes, SIDES_START + SIDE_SIZE * k)
        })
    }

    /// The instructions, up to the first with a fault.
    fn program(&self) -> Result<Table<Instruction, 64>, Refusal>
        ensures { mapped entries result ≡ unless (program_fault self.now.bytes.now (counted self.now.counts)) (program_read self.now.bytes.now (counted self.now.counts)) }
    {
        let blank = Instruction::Const(0);
        let knobs = self.counts.knobs;
        let start = self.counts.program_start();
        Table::try_from_fn(blank, self.counts.instructions, |k| {
            read_instruction(self.bytes, knobs, k, start + INSTRUCTION_SIZE * k)
        })
    }

    /// The targets, up to the first with a fault.
    fn targets(&self) -> Result<Table<Target, 8>, Refusal>
        ensures { mapped entries result ≡ unless (targets_fault self.now.bytes.now (counted self.now.counts)) (targets_read self.now.bytes.now (counted self.now.counts)) }
    {
        let blank = Target {
            register: 0,
            low: 0,
            high: 0,
        };
        let registers = self.counts.instructions;
        let start = self.counts.targets_start();
        Table::try_from_fn(blank, self.counts.targets, |k| {
            read_target(self.bytes, registers, start + TARGET_SIZE * k)
        })
    }

    /// What the record says, each field within its rule, up to the first that breaks it.
    pub(crate) fn fields(&self) -> Result<Fields, Refusal>
        ensures { mapped content result ≡ unless (field_fault self.now.bytes.now (counted self.now.counts)) (content_in self.now.bytes.now (counted self.now.counts)) }
    {
        let limit = self.limit()?;
        let start = Region {
            sides: self.sides()?,
        };
        Ok(Fields {
            limit,
            start,
            program: self.program()?,
            targets: self.targets()?,
        })
    }
}
