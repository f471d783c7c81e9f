ghost use Rattle.std.specs.Prelude.{◌≤◌, length};
ghost use Rattle.tables.specs.Tables.{entries};

use crate::side::Side;
use tables::table::Table;

/// A box of settings: one side for each knob.
// Contracts ask that a box has as many sides as the start box of the job. A type for that would have
// to hold the job too. There is no equality, as for `Table`.
#[derive(Clone, Copy)]
pub struct Region {
    pub sides: Table<Side, 4>,
    ghost some: { 1 ≤ length (entries sides) },
}

impl Region {
    ghost use Rattle.std.specs.Prelude.{◌≡◌, ◌^◌, Decides};
    ghost use Rattle.boxes.specs.Boxes.{In, Numbered, Part, count, nested};
    ghost use Rattle.boxes.specs.Views.{sides_of};

    /// The sides, by the numbers of their knobs.
    pub fn sides(&self) -> &[Side]
        ensures { result.now ≡ entries self.now.sides }
    {
        self.sides.as_slice()
    }

    /// How many knobs a setting of the box has.
    pub fn knobs(&self) -> usize
        ensures { result ≡ length (sides_of self.now) }
    {
        self.sides.len()
    }

    /// How many settings the box has.
    pub fn count(&self) -> u64
        ensures value { result ≡ count (sides_of self.now) }
        ensures settings { Numbered result (In (sides_of self.now)) }
        ensures bound { result ≤ 2 ^ 60 }
    {
        let mut count: u64 = 1;
        for side in self.sides() {
            count *= side.count() as u64;
        }
        count
    }

    /// Whether every setting of the box is one of the other's.
    pub fn inside(&self, other: &Region) -> bool
        ensures value { result ≡ nested (sides_of self.now) (sides_of other.now) }
        ensures decides { Decides result (Part (sides_of self.now) (sides_of other.now)) }
    {
        let mut pairs = self.sides().iter().zip(other.sides());
        self.knobs() == other.knobs() && pairs.all(|(side, outer)| side.inside(outer))
    }
}
