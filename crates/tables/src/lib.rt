//! Tables: at most N entries, held in the value itself.
//!
//! Nothing is allocated, and a table is copied as a whole. The contracts speak of the list of its
//! entries (specs/Tables); what the memory behind the last entry holds, no contract says.
#![tactic(auto)]

pub mod table;
