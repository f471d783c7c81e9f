ghost use Rattle.std.specs.Prelude.{◌≡◌, ◌≤◌, true, length};
ghost use Rattle.tables.specs.Tables.{entries};
ghost use Rattle.boxes.specs.Views.{sides_of};
ghost use Rattle.records.specs.Rules.{good_program, good_targets};

use crate::instruction::Instruction;
use crate::target::Target;
use boxes::region::Region;
use tables::table::Table;

/// What a job record says, each field within its rule.
// There is no equality, as for `Table`.
#[derive(Clone, Copy)]
pub struct Fields {
    pub limit: u16,
    pub start: Region,
    pub program: Table<Instruction, 64>,
    pub targets: Table<Target, 8>,
    ghost positive: { 1 ≤ limit },
    ghost limited: { limit ≤ 32768 },
    ghost working: { 1 ≤ length (entries program) },
    ghost aiming: { 1 ≤ length (entries targets) },
    ghost programmed: { good_program (length (sides_of start)) (entries program) ≡ true },
    ghost aimed: { good_targets (length (entries program)) (entries targets) ≡ true },
}
