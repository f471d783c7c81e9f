//! The forward-backward cutter, for every narrowing kind of range (the field's forward-backward
//! contractor).
//!
//! Forward it works out the registers of the job over the box. It keeps each target's register
//! within the target, then goes backward from the last instruction to the first and narrows the
//! operands of each by its result: the first operand, then the second by the new first one. The
//! instruction of a knob cuts the knob's side of the box. Where a register keeps no number, or a
//! side would cross, nothing is left: that is passed up as an absence.
//!
//! What it leaves is given by an equation (specs/Backward). Above that stands a law over values
//! (specs/Narrowing): whatever numbers the registers hold that fit the instructions, each step
//! leaves them held. So no setting that meets the job is lost. No proof here names a kind of range.
#![tactic(auto)]

mod backward;
pub mod forward_backward;
pub mod laws;
mod narrow;
mod operands;
