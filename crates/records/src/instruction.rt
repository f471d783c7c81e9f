/// What an instruction puts into its register. A register's number stands for its value.
#[derive(Clone, Copy, PartialEq, Eq, Debug)]
pub enum Instruction {
    /// The number.
    Const(i32),
    /// The number of the knob.
    Knob(u8),
    /// The first plus the second.
    Add(u8, u8),
    /// The first less the second.
    Sub(u8, u8),
    /// The first times the second.
    Mul(u8, u8),
    /// The register's square.
    Sqr(u8),
    /// The lesser of the two.
    Min(u8, u8),
    /// The first over two to the power of the second number itself, rounded down.
    Shr(u8, u8),
}
