/// The first register that is too large.
#[derive(Clone, Copy, PartialEq, Eq, Debug)]
pub struct OutOfBound {
    pub register: usize,
}
