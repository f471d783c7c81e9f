/// Why registers cannot be worked out over a box.
#[derive(Clone, Copy, PartialEq, Eq, Debug)]
pub enum Unfit {
    /// There are fewer scratch rows than instructions.
    Scratch,
    /// The box does not lie inside the job's start box.
    Elsewhere,
}
