//! The raster range: low, low + 2^t, .. up to high, with t from 0 to 31 (the field's interval with a
//! congruence).
//!
//! It is a kind of range like any other: it answers the laws of `Range` and `Narrowing`, and code
//! that is written for those needs to know nothing of this crate. Each contract gives the answer by
//! an equation with the definition of the kind (specs/Rasters): the plain ends, and the power t of
//! the answer's step. Only a square's ends are moved inward, to numbers that differ from low squared
//! by whole steps, and so are those of what is kept.
//!
//! Laws in other words stand beside that (specs/RasterLaws): a range holds exactly its low end and
//! the whole steps from there up to its high end, and each operation takes such numbers of its
//! operands to such numbers of its answer. How often 2 divides a number, which a product's step and
//! a minimum's rest on, is the greatest power up to a limit (`GreatestPower` of `whole`).
//!
//! The plain ends themselves are worked out in `ranges::spans`. That t is at most 31 stands in its
//! type, `Power`.
#![tactic(auto)]

pub mod laws;
mod making;
pub mod power;
mod powers;
pub mod raster;
pub mod raster_range;
