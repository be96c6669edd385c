// The path that a walk over a table carries.

ghost use Rattle.std.specs.Prelude.{◌≤◌};

// The rows of the open levels, outermost first: its top is the row at hand. Document 01 has the path as a struct of 32 row numbers and a
// depth, passed by value.
#[derive(Clone, Copy)]
pub struct Path {
    pub rows: [usize; 32],
    pub depth: usize,
    pub ghost shallow: { depth ≤ 32 },
}

impl Path {
    ghost use Rattle.std.specs.Prelude.{◌≡◌, ◌<◌};
    ghost use Rattle.table.specs.Path.{top_of, Entered};

    // The path of a type's first row.
    pub fn outermost() -> Self
        ensures { (result.depth ≡ 1) × (top_of result ≡ 0) }
    {
        Path {
            rows: [0; 32],
            depth: 1,
        }
    }

    // The row at its end; of a path without levels the first of its 32 numbers.
    pub fn top(self) -> usize
        ensures { result ≡ top_of self }
    {
        // In a local of its own: read out of the path, the array is compiled to one copy more.
        let rows = self.rows;
        rows[self.depth.saturating_sub(1)]
    }

    // One level further down, at a row.
    pub fn enter(self, row: usize) -> Self
        requires { self.depth < 32 }
        ensures { Entered self row result }
    {
        let depth = self.depth;
        let mut rows = self.rows;
        rows[depth] = row;
        Path {
            rows,
            depth: depth + 1,
        }
    }
}
