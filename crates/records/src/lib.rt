//! The job record: what its fields say, how they are read, and why a record is refused.
//!
//! `Fields::read` takes any byte string. It answers the fields of a job, each within its rule, or a
//! `Refusal`: a reason and a place. Its contract gives the answer by an equation on every byte
//! string; it says that a byte string is accepted exactly where it is the record of fields that
//! keep every rule, which are then read; and that a refusal tells the broken rule that is looked at
//! first. `Fields` carries the rules in its type.
//!
//! What a job means, its registers and the settings that meet it, is left to the crates above, and
//! so is the refusal of a job with a register that is too large.
#![tactic(auto)]

mod bytes;
mod counts;
pub mod fields;
pub mod instruction;
mod items;
mod layout;
mod operation;
mod places;
mod reading;
pub mod reason;
mod record;
pub mod target;
