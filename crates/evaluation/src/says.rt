ghost use Rattle.std.specs.Prelude.{Some};
ghost use Rattle.evaluation.specs.Words.{word};

use std::fmt;

/// What the targets of a job say of a box.
#[derive(Clone, Copy, PartialEq, Eq, Debug)]
pub enum Says {
    /// Every target holds at every setting of the box.
    Within,
    /// Some target holds at no setting of the box.
    Apart,
    /// Neither can be told.
    Open,
}

impl fmt::Display for Says {
    ghost output = { λ says. Some (word says) };

    fn fmt<W: fmt::Write>(&self, f: &mut fmt::Formatter<W>) -> fmt::Result {
        // closed kinds, and a word for each
        f.write_str(match self {
            Says::Within => "within",
            Says::Apart => "apart",
            Says::Open => "open",
        })
    }
}

/// How many targets of a job are within, and how many apart, over a box.
#[derive(Clone, Copy, PartialEq, Eq, Debug)]
pub struct Counts {
    pub within: usize,
    pub apart: usize,
}
