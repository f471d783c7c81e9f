//! Ranges: sets of whole numbers that stand for all values a register can take over a box (the
//! field's intervals, with room for finer kinds).
//!
//! A kind of range is a type with the trait `Range`. What it means is a record over plain rows: the
//! numbers that a row holds, and the answer of each operation. `Lawful` (specs/Kind) lists the rules
//! that every kind owes: an answer holds every result of held operands, its ends never lie outside
//! the plain answer for the operands' ends, and it is too large exactly where that plain answer
//! leaves the bound, 2^30 on either side of 0. `Narrowing` adds keeping: exactly the held numbers
//! from x to y. Generic code is proved against these alone.
//!
//! `spans` works out the plain answer of each operation from the operands' ends, for every kind to
//! start from. The plain range holds all numbers from low to high. Its answers are the least plain
//! ranges that hold every result, and they grow with their operands (specs/PlainLaws).
#![tactic(auto)]

pub mod laws;
pub mod narrowing;
pub mod plain;
pub mod plain_range;
pub mod range;
pub mod row;
pub mod spans;
