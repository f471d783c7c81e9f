ghost use Rattle.std.specs.Prelude.{◌≡◌, pos};
ghost use Rattle.records.specs.Entries.{a_values, b_values, c_reach, decoded};
ghost use Rattle.records.specs.Operations.{Decodes, code_of};

use crate::instruction::Instruction;
use ranges::spans::BOUND;

/// The operations. In a record each stands by its code, a number from 0 to 7.
#[derive(Clone, Copy, PartialEq, Eq, Debug)]
pub enum Operation {
    Const,
    Knob,
    Add,
    Sub,
    Mul,
    Sqr,
    Min,
    Shr,
}

/// A code that no operation has.
#[derive(Clone, Copy, PartialEq, Eq, Debug)]
pub struct UnknownOperation(pub u8);

impl TryFrom<u8> for Operation {
    type Error = UnknownOperation;

    ghost try_from_gives = { Decodes };

    fn try_from(code: u8) -> Result<Self, UnknownOperation> {
        match code {
            0 => Ok(Operation::Const),
            1 => Ok(Operation::Knob),
            2 => Ok(Operation::Add),
            3 => Ok(Operation::Sub),
            4 => Ok(Operation::Mul),
            5 => Ok(Operation::Sqr),
            6 => Ok(Operation::Min),
            7 => Ok(Operation::Shr),
            _ => Err(UnknownOperation(code)),
        }
    }
}

// The operations are closed, so each question of them is a match with a line for each answer.
impl Operation {
    /// How many values, from 0, the field a of instruction k may take.
    pub(crate) fn values_of_a(self, knobs: usize, k: usize) -> usize
        ensures { result ≡ a_values (code_of self) knobs k }
    {
        match self {
            Operation::Const => 1,
            Operation::Knob => knobs,
            _ => k,
        }
    }

    /// How many values, from 0, the field b of instruction k may take.
    pub(crate) fn values_of_b(self, k: usize) -> usize
        ensures { result ≡ b_values (code_of self) k }
    {
        match self {
            Operation::Const | Operation::Knob | Operation::Sqr => 1,
            Operation::Shr => 31,
            _ => k,
        }
    }

    /// How far the field c may lie from 0.
    pub(crate) fn reach_of_c(self) -> i32
        ensures { result ≡ pos (c_reach (code_of self)) }
    {
        match self {
            Operation::Const => BOUND,
            _ => 0,
        }
    }

    /// The instruction with these fields.
    pub(crate) fn instruction(self, a: u8, b: u8, c: i32) -> Instruction
        ensures { result ≡ decoded (code_of self) a b c }
    {
        match self {
            Operation::Const => Instruction::Const(c),
            Operation::Knob => Instruction::Knob(a),
            Operation::Add => Instruction::Add(a, b),
            Operation::Sub => Instruction::Sub(a, b),
            Operation::Mul => Instruction::Mul(a, b),
            Operation::Sqr => Instruction::Sqr(a),
            Operation::Min => Instruction::Min(a, b),
            Operation::Shr => Instruction::Shr(a, b),
        }
    }
}
