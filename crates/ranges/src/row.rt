/// What scratch memory holds in the place of a range: two ends, and how a kind spaces its numbers.
/// Any three numbers are a row; a range is made from one after a check.
#[derive(Clone, Copy, PartialEq, Eq, Debug, Default)]
pub struct Row {
    pub low: i32,
    pub high: i32,
    pub step: u32,
}
