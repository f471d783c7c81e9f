//! Tests of the crates below on examples: job records that an independent program judged, records
//! made by hand, bytes that are no record at all, answers of plain and raster ranges, what the targets
//! of jobs say of boxes, what cutters leave of them, and how values print. The crate has no code of its
//! own besides.
#![tactic(auto)]

#[cfg(test)]
mod answers;
#[cfg(test)]
mod cases;
#[cfg(test)]
mod cuts;
#[cfg(test)]
mod cutters_tests;
#[cfg(test)]
mod jobs_read;
#[cfg(test)]
mod judging_tests;
#[cfg(test)]
mod kinds_tests;
#[cfg(test)]
mod outside;
#[cfg(test)]
mod outside_judged;
#[cfg(test)]
mod printing_tests;
#[cfg(test)]
mod ranges_tests;
#[cfg(test)]
mod records_tests;
#[cfg(test)]
mod worked;
