ghost use Rattle.std.specs.Prelude.{◌≡◌, ◌≤◌, ⊤};

use std::alloc::AllocError;

/// At most N entries.
// An array and a length stand here, once for all tables: the shelf's arrays with a length do not
// copy. Clone and Copy are written out, since a derive is refused where a ghost field speaks of a
// generic type. There is no equality, here or in what holds a table: a derived one would compare
// what the memory behind the last entry holds.
pub struct Table<T, const N: usize> {
    pub(crate) cells: [T; N],
    pub(crate) len: usize,
    ghost room: { len ≤ N },
}

impl<T: Copy, const N: usize> Clone for Table<T, N> {
    ghost is_clone = { λ x y. y ≡ x };

    ghost is_infallible = { λ _. ⊤ };

    fn clone(&self) -> Result<Self, AllocError> {
        Ok(*self)
    }
}

impl<T: Copy, const N: usize> Copy for Table<T, N> {}

impl<T: Copy, const N: usize> Table<T, N> {
    ghost use Rattle.std.specs.Prelude.{◌≡◌, ◌<◌, ◌++◌, ◌∷◌, [], length, slice_set};
    ghost use Rattle.std.specs.Result.{MatchResult};
    ghost use Rattle.tables.specs.Tables.{Failed, Made, entries};

    /// The table with no entries; its memory holds the blank.
    pub fn new(blank: T) -> Self
        ensures { entries result ≡ [] }
    {
        Table {
            cells: [blank; N],
            len: 0,
        }
    }

    /// How many entries there are.
    pub fn len(&self) -> usize
        ensures value { result ≡ length (entries self.now) }
        ensures room { result ≤ N }
    {
        self.as_slice().len()
    }

    /// The entries.
    pub fn as_slice(&self) -> &[T]
        ensures { result.now ≡ entries self.now }
    {
        &self.cells[..self.len]
    }

    /// Puts an entry behind the last.
    pub fn push(&mut self, entry: T)
        requires { length (entries self.old) < N }
        ensures { entries self.new ≡ entries self.old ++ (entry ∷ []) }
    {
        self.cells[self.len] = entry;
        self.len += 1;
    }

    /// Puts an entry in the place of another.
    pub fn set(&mut self, at: usize, entry: T)
        requires { at < length (entries self.old) }
        ensures { entries self.new ≡ slice_set (entries self.old) at entry }
    {
        self.cells[at] = entry;
    }

    /// The table of so many entries, each made by its number, or the first failure.
    pub fn try_from_fn<E, F: Fn(usize) -> Result<T, E>>(
        blank: T,
        count: usize,
        make: F,
    ) -> Result<Self, E>
        requires room { count ≤ N }
        requires callable { (k : _) → k < count → F.pre make k }
        ensures { MatchResult result (λ t. Made (F.post make) count (entries t)) (Failed (F.post make) count) }
    {
        let mut table = Table::new(blank);
        // each entry is made from its number, so the loop goes over numbers
        for k in 0..count {
            table.push(make(k)?);
        }
        Ok(table)
    }
}
