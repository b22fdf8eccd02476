//! Entries of objects.
ghost use Rattle.std.specs.Prelude.{◌≡◌, ◌+◌, ◌*◌, ◌^◌};
ghost use Rattle.model.specs.Entries.{same_position};

/// A stored value of a matrix or a vector: its row and column, from 0, and the word of the value.
/// A vector's entries stand in column 0.
#[derive(Clone, Copy, Debug, PartialEq, Eq)]
pub struct Entry {
    pub row: u64,
    pub col: u64,
    pub word: u64,
}

impl Entry {
    /// Whether another entry is of the same row and column.
    #[inline(always)]
    pub fn shares_position(&self, other: &Entry) -> bool
        ensures { result ≡ same_position self.now other.now }
    {
        self.row == other.row && self.col == other.col
    }

    /// The position as one number, by which entries stand row by row. Two such numbers are compared without
    /// a branch, unlike two pairs of a row and a column.
    #[inline(always)]
    pub fn key(&self) -> u128
        ensures { result ≡ self.now.row * 2 ^ 64 + self.now.col }
    {
        let (row, col) = (self.row, self.col);
        u128::from(row) << 64 | u128::from(col)
    }
}
