/// How many bytes a side, an instruction and a target take.
pub(crate) const SIDE_SIZE: usize = 4;

pub(crate) const INSTRUCTION_SIZE: usize = 7;

pub(crate) const TARGET_SIZE: usize = 9;

/// Where the parts with a fixed place stand.
pub(crate) const VERSION_PLACE: usize = 4;

pub(crate) const KNOBS_PLACE: usize = 5;

pub(crate) const LIMIT_PLACE: usize = 6;

pub(crate) const SIDES_START: usize = 8;
