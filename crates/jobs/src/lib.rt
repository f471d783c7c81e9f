//! Jobs: what a job record means, and the whole of its reading.
//!
//! `Job::read` takes any byte string and answers the job, or a refusal with its reason and place.
//! Its contract pins the answer on every byte string: a record is accepted exactly where it is the
//! record of a job that keeps every rule, and then that job is read; a refusal tells the broken
//! rule that is looked at first. The type `Job` carries the rules, and that every register has a
//! plain range over the start box within the bound; so no register leaves the bound at any setting
//! of that box.
//!
//! `specs/Meaning` says what the registers' values at a setting are, and which settings meet a job.
//! `registers::evaluate` works out the rows of all registers over a box, by any kind of range; each
//! row holds its register's value at every setting of the box.
//! What the targets say of a box, and everything that sorts boxes, is left to the crates above.
#![tactic(auto)]

pub mod job;
pub mod laws;
pub mod out_of_bound;
mod reading;
pub mod registers;
