ghost use Rattle.std.specs.Prelude.{◌≡◌, ◌+◌, ◌≤◌, length};
ghost use Rattle.boxes.specs.Boxes.{between};
ghost use Rattle.boxes.specs.Views.{ends_of};
ghost use Rattle.records.specs.Faults.{unless, mapped};
ghost use Rattle.records.specs.Entries.{instruction_at, instruction_fault, side_at, side_fault, target_at, target_fault};

use crate::bytes::{read_i16, read_i32};
use crate::instruction::Instruction;
use crate::operation::Operation;
use crate::reason::{Reason, Refusal};
use crate::target::Target;
use boxes::side::{HIGHEST, LOWEST, Side};
use ranges::spans::BOUND;

// An item is read from the bytes at a place, which lies within them as any index must.

/// Whether x lies from low to high.
fn lies(low: i32, x: i32, high: i32) -> bool
    ensures { result ≡ between low x high }
{
    (low..=high).contains(&x)
}

/// Instruction k of a job with so many knobs, from the seven bytes at a place.
pub(crate) fn read_instruction(
    bytes: &[u8],
    knobs: usize,
    k: usize,
    at: usize,
) -> Result<Instruction, Refusal>
    requires { at + 7 ≤ length bytes.now }
    ensures { result ≡ unless (instruction_fault bytes.now knobs k at) (instruction_at bytes.now at) }
{
    let Ok(operation) = Operation::try_from(bytes[at]) else {
        return Err(Refusal::new(Reason::BadInstruction, at));
    };
    let a = bytes[at + 1];
    let b = bytes[at + 2];
    let c = read_i32(bytes, at + 3);
    if operation.values_of_a(knobs, k) <= a as usize {
        return Err(Refusal::new(Reason::BadInstruction, at + 1));
    }
    if operation.values_of_b(k) <= b as usize {
        return Err(Refusal::new(Reason::BadInstruction, at + 2));
    }
    let reach = operation.reach_of_c();
    if !lies(-reach, c, reach) {
        return Err(Refusal::new(Reason::BadInstruction, at + 3));
    }
    Ok(operation.instruction(a, b, c))
}

/// The side in the four bytes at a place.
pub(crate) fn read_side(bytes: &[u8], at: usize) -> Result<Side, Refusal>
    requires { at + 4 ≤ length bytes.now }
    ensures { mapped ends_of result ≡ unless (side_fault bytes.now at) (side_at bytes.now at) }
{
    let low = read_i16(bytes, at);
    let high = read_i16(bytes, at + 2);
    if !lies(LOWEST, low, HIGHEST) {
        return Err(Refusal::new(Reason::BadField, at));
    }
    if !lies(low, high, HIGHEST) {
        return Err(Refusal::new(Reason::BadField, at + 2));
    }
    Ok(Side { low, high })
}

/// The target, in a job with so many registers, in the nine bytes at a place.
pub(crate) fn read_target(bytes: &[u8], registers: usize, at: usize) -> Result<Target, Refusal>
    requires { at + 9 ≤ length bytes.now }
    ensures { result ≡ unless (target_fault bytes.now registers at) (target_at bytes.now at) }
{
    let register = bytes[at];
    let low = read_i32(bytes, at + 1);
    let high = read_i32(bytes, at + 5);
    if registers <= register as usize {
        return Err(Refusal::new(Reason::BadField, at));
    }
    if !lies(-BOUND, low, BOUND) {
        return Err(Refusal::new(Reason::BadField, at + 1));
    }
    if !lies(low, high, BOUND) {
        return Err(Refusal::new(Reason::BadField, at + 5));
    }
    Ok(Target {
        register,
        low,
        high,
    })
}
