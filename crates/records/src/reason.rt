ghost use Rattle.std.specs.Prelude.{◌≡◌, Some};
ghost use Rattle.records.specs.Reasons.{number, refused};

use std::error::Error;
use std::fmt;

/// Why a job is refused.
#[derive(Clone, Copy, PartialEq, Eq, Debug)]
pub enum Reason {
    /// The record is shorter than its head, or its length field is wrong.
    BadLength = 1,
    /// The version is unknown.
    BadVersion = 2,
    /// A count is outside its limits, or the record ends early or late.
    BadShape = 3,
    /// An instruction breaks its rule.
    BadInstruction = 4,
    /// The limit, a side or a target breaks its rule.
    BadField = 5,
    /// A register can leave the bound.
    TooLarge = 6,
}

/// A reason, and the place where it arose.
#[derive(Clone, Copy, PartialEq, Eq, Debug)]
pub struct Refusal {
    pub reason: Reason,
    pub place: usize,
}

impl Refusal {
    /// The refusal for this reason at this place.
    pub fn new(reason: Reason, place: usize) -> Refusal
        ensures { result ≡ record { reason = reason; place = place } }
    {
        Refusal { reason, place }
    }
}

/// The reason's number.
impl From<Reason> for u32 {
    ghost from_gives = { λ reason n. n ≡ number reason };

    fn from(reason: Reason) -> u32 {
        reason as u32
    }
}

impl fmt::Display for Refusal {
    ghost output = { λ refusal. Some (refused refusal) };

    fn fmt<W: fmt::Write>(&self, f: &mut fmt::Formatter<W>) -> fmt::Result {
        let number = u32::from(self.reason);
        let place = self.place;
        write!(f, "refused {number} {place}")
    }
}

impl Error for Refusal {}
