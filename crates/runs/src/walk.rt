// The walk over a type's rows that lists its runs.

ghost use Rattle.std.specs.Prelude.{◌≡◌, not, ◌&&◌, ◌<◌};
ghost use Rattle.compare.specs.Agreeing.{is_field_of, is_string_of};

use crate::{Run, Runs, add_run};
use compare::{is_field, is_string, nul_terminated};
use rows::{Entry, row_entry, row_member};
use table::{Path, array_total, next_row, size_at};

// What all steps of the walk share: the rows and the pool, how long a record is, and how many closed runs end the walk.
#[derive(Clone, Copy)]
pub struct Walk<'a> {
    pub table: &'a [u32],
    pub pool: &'a [u8],
    pub limit: usize,
    pub most: usize,
    pub ghost low: { limit < 4294967296 },
}

// Whether a row's type is a field that counts whole, an entry of which follows the one before without a gap.
#[tactic(auto, unfolding(compare::specs::Agreeing::is_field_in, compare::specs::Agreeing::is_string_in))]
fn is_whole(entry: Entry) -> bool
    ensures { result ≡ (is_field_of entry && not (is_string_of entry)) }
{
    is_field(Some(entry)) && !is_string(Some(entry))
}

impl<'a> Walk<'a> {
    ghost use Rattle.std.specs.Prelude.{◌+◌, ◌*◌, ◌-◌, ◌≤◌, length};
    ghost use Rattle.rows.specs.Entries.{RowSays};
    ghost use Rattle.table.specs.Path.{top_of};
    ghost use Rattle.runs.specs.Walking.{WalksField, WalksType, WalksArray, WalksMembers, WalksEntries};

    // A field, the row behind it given; none is listed that reaches past the record's end.
    fn list_field(self, field: Run, row: usize, s: Runs, work: &mut [u64]) -> Runs
        requires { field.place ≤ self.limit }
        ensures { WalksField self.entry field row s work.old result work.new }
    {
        if self.limit - field.place < field.size {
            return s;
        }
        add_run(s, field, row, work)
    }

    // The fields of the type at the top of the path, `entry` what its row has; its record begins at `at`.
    #[cycle(list)]
    pub fn list_type(self, path: Path, entry: Entry, at: usize, s: Runs, work: &mut [u64]) -> Runs
        requires { (at ≤ self.limit) × RowSays self.table.now (top_of path) (Some entry) }
        ensures { WalksType self.entry (33 - path.depth) (top_of path) at s work.old result work.new }
    {
        let row = path.top();
        match entry {
            Entry::VariableLength(_, _, _) => s,
            Entry::Leaf(class, size, _, code) => {
                let field = Run {
                    place: at,
                    size: size as usize,
                    ended: nul_terminated(class, code),
                };
                self.list_field(field, row + 1, s, work)
            }
            Entry::Enumeration(size, _) => {
                let next = next_row(self.table, row, 33 - path.depth);
                let field = Run {
                    place: at,
                    size: size as usize,
                    ended: false,
                };
                self.list_field(field, next, s, work)
            }
            Entry::Compound(_, count) => self.list_members(path, row + 1, count, at, s, work),
            Entry::Array(rank) => self.list_array(path, row, rank, at, s, work),
        }
    }

    // The fields of an array whose row is the top of the path, and whose record begins at `at`: one field where its base is one that counts
    // whole, else entry by entry.
    #[cycle(list)]
    fn list_array(
        self,
        path: Path,
        row: usize,
        rank: u32,
        at: usize,
        s: Runs,
        work: &mut [u64],
    ) -> Runs
        requires { (at ≤ self.limit) × (row * 16 + 16 ≤ length self.table.now) }
        ensures { WalksArray self.entry (32 - path.depth) row rank at s work.old result work.new }
    {
        let depth = path.depth;
        if depth >= 32 {
            return s;
        }
        let below = row + 1;
        let stride = size_at(self.table, self.pool, below, 32 - depth);
        if stride == 0 {
            return s;
        }
        let bytes = array_total(self.table, self.pool, row, rank, stride);
        let Some(entry) = row_entry(self.table, below) else {
            return s;
        };
        if is_whole(entry) {
            let next = next_row(self.table, below, 32 - depth);
            let field = Run {
                place: at,
                size: bytes as usize,
                ended: false,
            };
            return self.list_field(field, next, s, work);
        }
        let count = (bytes / stride as u64) as usize;
        self.list_entries(
            path.enter(below),
            entry,
            at,
            stride as usize,
            count,
            s,
            work,
        )
    }

    // The members of a compound whose record begins at `at`, until `most` runs are closed.
    #[cycle(list)]
    fn list_members(
        self,
        path: Path,
        row: usize,
        members: u32,
        at: usize,
        s: Runs,
        work: &mut [u64],
    ) -> Runs
        requires { at ≤ self.limit }
        ensures { WalksMembers self.entry (32 - path.depth) members row at s work.old result work.new }
    {
        let depth = path.depth;
        let mut state = s;
        let mut r = row;
        for _ in 0..members {
            if state.closed >= self.most {
                return state;
            }
            if depth >= 32 {
                return state;
            }
            let Some(member) = row_member(self.table, r) else {
                return state;
            };
            let offset = member.number as usize;
            if self.limit - at < offset {
                return state;
            }
            state = self.list_member(path, r + 1, at + offset, state, work);
            r = state.row;
        }
        state.row = r;
        state
    }

    // The fields of a member's type at a row, whose record begins at `at`.
    #[cycle(list)]
    fn list_member(self, path: Path, row: usize, at: usize, s: Runs, work: &mut [u64]) -> Runs
        requires { (path.depth < 32) × (at ≤ self.limit) }
        ensures { WalksType self.entry (32 - path.depth) row at s work.old result work.new }
    {
        let Some(entry) = row_entry(self.table, row) else {
            return s;
        };
        self.list_type(path.enter(row), entry, at, s, work)
    }

    // So many entries of an array, a base size apart, until `most` runs are closed; the path's top is the base's row, and `entry` what it has.
    #[cycle(list)]
    fn list_entries(
        self,
        path: Path,
        entry: Entry,
        at: usize,
        stride: usize,
        count: usize,
        s: Runs,
        work: &mut [u64],
    ) -> Runs
        requires { (at ≤ self.limit) × RowSays self.table.now (top_of path) (Some entry) }
        ensures { WalksEntries self.entry (33 - path.depth) (top_of path) stride count at s work.old result work.new }
    {
        let mut state = s;
        let mut start = at;
        for _ in 0..count {
            if state.closed >= self.most {
                return state;
            }
            if self.limit - start < stride {
                return state;
            }
            state = self.list_type(path, entry, start, state, work);
            start += stride;
        }
        state
    }
}
