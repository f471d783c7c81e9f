//! The registers of a job over a box, and what the targets say of the box, by any kind of range.
//!
//! `evaluate` works out the rows of all registers over a box inside the job's start box. Its
//! contract gives the rows by the kind's operations, and the laws that hold for every lawful kind:
//! no register is ever too large there, each row holds its register's value at every setting of the
//! box, and over a box of one setting it holds nothing else. `judge` then holds the rows against the
//! targets: all within (every setting of the box meets the job), some apart (none does), or open; a
//! box of one setting is never open. Scratch that is too short and a box that lies elsewhere are
//! refused, and leave the scratch rows as they were.
//!
//! No proof here names a kind of range besides the plain one, by which a job is read.
//! What is done with a box is left to the crates above.
#![tactic(auto)]

pub mod evaluate;
pub mod judge;
pub mod says;
pub mod unfit;
