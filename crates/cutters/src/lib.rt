//! Cutters: what shrinks a box without losing a setting that meets the job (the field calls them
//! contractors), and how they are put together.
//!
//! A cutter is a type with the trait `Cutter<R>`, where R is the kind of range of the scratch rows
//! that it works on, the same for all cutters of one call. It is lent a box and scratch rows, and
//! answers whether anything is left, beside the box that it then leaves; where nothing is left the
//! box stays as it was lent. What it leaves is decided by job and box alone: that is its meaning,
//! the ghost member `leaves`. `Lawful` (specs/Cutting) lists the rules that every cutter owes: what
//! is left lies within the box, no setting that may lock is lost, and a box that is not inside the
//! start box is left as it is, as is any box where scratch is shorter than the program.
//!
//! `Idle` leaves every box as it is. `Seq` is one cutter and then another on what the first left,
//! `Repeat` one cutter up to 16 times. They hold cutters by value, and lose no setting because those
//! below lose none. What the scratch rows hold after a cut is left free.
#![tactic(auto)]

pub mod cutter;
pub mod idle;
pub mod repeat;
pub mod seq;
