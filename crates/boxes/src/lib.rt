//! Sides, boxes and settings.
//!
//! A setting has one whole number for each of 1 to 4 knobs. A side is the numbers of one knob from
//! its low end to its high end (an interval), and a region is a box of settings: one side for each
//! knob. The types carry their rules: a side's ends lie from -16,384 to 16,383 and its low end does
//! not pass its high one, so no box is ever empty or crossed.
//!
//! The contracts say which sides can be made, that a region's count is the number of its settings,
//! and when a region lies inside another: when every setting of it is one of the other's. What a job
//! asks of a setting is left to the crates above.
#![tactic(auto)]

pub mod region;
pub mod side;
