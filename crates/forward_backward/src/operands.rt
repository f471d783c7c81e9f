ghost use Rattle.std.specs.Prelude.{◌≡◌, ◌<◌, length};
ghost use Rattle.ranges.specs.Kind.{ends};
ghost use Rattle.inverses.specs.Inverses.{known_ends};
ghost use Rattle.forward_backward.specs.Operands.{Earlier, both, first_ends, operands, second_ends};
ghost use Rattle.forward_backward.specs.Told.{Left};

use crate::narrow::{narrow_if, row_at};
use inverses::{of_factor, of_lesser, of_minuend, of_shifted, of_square, of_subtrahend, of_sum};
use ranges::narrowing::Narrowing;
use ranges::row::Row;
use ranges::spans::Span;
use records::instruction::Instruction;

// Each match here has a line for each kind of instruction, and the kinds are closed. The rows of a
// result and of its operands are the terms of a rule, and no struct holds them: each rule takes other
// ones. An instruction's number is that of its result.

/// The ends between which the first operand lies, by the result and both operands.
fn first_ends(instruction: Instruction, z: Row, x: Row, y: Row) -> Option<Span>
    ensures { known_ends result ≡ first_ends instruction (ends z) (ends x) (ends y) }
{
    match instruction {
        Instruction::Const(_) | Instruction::Knob(_) => None,
        Instruction::Add(_, _) => Some(of_sum(z, y)),
        Instruction::Sub(_, _) => Some(of_minuend(z, y)),
        Instruction::Mul(_, _) => of_factor(z, y),
        Instruction::Sqr(_) => Some(of_square(z, x)),
        Instruction::Min(_, _) => Some(of_lesser(z, x, y)),
        Instruction::Shr(_, b) => Some(of_shifted(z, b as u32)),
    }
}

/// The ends between which the second operand lies, if there is one.
fn second_ends(instruction: Instruction, z: Row, x: Row, y: Row) -> Option<Span>
    ensures { known_ends result ≡ second_ends instruction (ends z) (ends x) (ends y) }
{
    match instruction {
        Instruction::Const(_)
        | Instruction::Knob(_)
        | Instruction::Sqr(_)
        | Instruction::Shr(_, _) => None,
        Instruction::Add(_, _) => Some(of_sum(z, x)),
        Instruction::Sub(_, _) => Some(of_subtrahend(z, x)),
        Instruction::Mul(_, _) => of_factor(z, x),
        Instruction::Min(_, _) => Some(of_lesser(z, y, x)),
    }
}

/// Narrows the operands a and b of instruction j: a first, then b by the new a.
fn narrow_both<R: Narrowing>(
    instruction: Instruction,
    rows: &mut [Row],
    j: usize,
    a: usize,
    b: usize,
) -> Option<()>
    requires result { j < length rows.old }
    requires first { a < length rows.old }
    requires second { b < length rows.old }
    ensures { Left (both R.Range.kind R.Narrowing.keeper instruction rows.old j a b) result rows.new }
{
    let z = row_at::<R>(rows, j);
    let x = row_at::<R>(rows, a);
    let y = row_at::<R>(rows, b);
    narrow_if::<R>(rows, a, first_ends(instruction, z, x, y))?;
    let new_x = row_at::<R>(rows, a);
    let new_y = row_at::<R>(rows, b);
    narrow_if::<R>(rows, b, second_ends(instruction, z, new_x, new_y))
}

/// Narrows the operands of instruction j by its result.
pub(crate) fn narrow_operands<R: Narrowing>(
    instruction: Instruction,
    rows: &mut [Row],
    j: usize,
) -> Option<()>
    requires room { j < length rows.old }
    requires earlier { Earlier j instruction }
    ensures { Left (operands R.Range.kind R.Narrowing.keeper instruction j rows.old) result rows.new }
{
    match instruction {
        Instruction::Const(_) | Instruction::Knob(_) => Some(()),
        Instruction::Add(a, b)
        | Instruction::Sub(a, b)
        | Instruction::Mul(a, b)
        | Instruction::Min(a, b) => {
            narrow_both::<R>(instruction, rows, j, a as usize, b as usize)
        }
        Instruction::Sqr(a) | Instruction::Shr(a, _) => {
            narrow_both::<R>(instruction, rows, j, a as usize, a as usize)
        }
    }
}
