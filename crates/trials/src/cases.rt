use evaluation::says::Says;

/// A record in hexadecimal that is refused, with the number and the place of the refusal: numbers, as
/// they are printed, and as an independent program tells them.
pub struct Refused {
    pub text: &'static str,
    pub number: u32,
    pub place: usize,
}

/// A record in hexadecimal that is accepted, with the number of settings of its start box.
pub struct Accepted {
    pub text: &'static str,
    pub settings: u64,
}

/// A kind of range. A table of cases cannot hold a type, so a case names its kind.
#[derive(Clone, Copy, PartialEq, Eq, Debug)]
pub enum Kind {
    Plain,
    Raster,
}

/// A job's record in hexadecimal, and what its targets say of its start box by a kind of range.
pub struct Judged {
    pub text: &'static str,
    pub kind: Kind,
    pub says: Says,
}
