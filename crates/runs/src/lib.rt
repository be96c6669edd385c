// The runs of a type: its fields in walking order, neighbours that count whole made one, listed by one walk over the rows into a workspace.
#![tactic(auto)]

mod walk;

ghost use Rattle.std.specs.Prelude.{◌≡◌, ◌+◌, ◌*◌, ◌-◌, ◌<◌};
ghost use Rattle.compare.specs.Agreeing.{Admits};
ghost use Rattle.groups.specs.Duplicates.{fields_in_of};
ghost use Rattle.groups.specs.Runs.{joins, run_code_of, runs_of};
ghost use Rattle.runs.specs.Listing.{as_field, Stores, ListsOne, RunsListed};

use crate::walk::Walk;
use rows::row_entry;
use table::Path;

// A run of `size` bytes at a place of the record: fields that count whole, or one string, which ends at its own first NUL.
#[derive(Clone, Copy)]
pub struct Run {
    pub place: usize,
    pub size: usize,
    pub ended: bool,
}

// The runs so far: the row behind what is listed, how many runs are closed, and the open one. Closed runs stand in the workspace from its end
// on, if there is room: the latest first.
#[derive(Clone, Copy)]
pub struct Runs {
    pub row: usize,
    pub closed: usize,
    pub last: Run,
}

// Whether a field lengthens the open run.
fn joins_run(last: Run, field: Run) -> bool
    ensures { result ≡ joins (as_field last) (as_field field) }
{
    if last.ended || field.ended || field.place < last.place {
        return false;
    }
    field.place - last.place == last.size
}

// The second word of a run.
fn run_code(run: Run) -> u64
    requires { run.size < 4294967296 }
    ensures { result ≡ run_code_of (as_field run) }
{
    (run.size as u64) * 2 + u64::from(run.ended)
}

// Stores the open run before those that stand at the workspace's end, if there is room. The answer is how many are closed then; it stops at
// 9,223,372,036,854,775,808, more than any workspace holds.
fn store_run(s: Runs, work: &mut [u64]) -> usize
    ensures { Stores s work.old result work.new }
{
    if s.closed >= 9223372036854775808 {
        return s.closed;
    }
    if s.last.size >= 4294967296 {
        return s.closed + 1;
    }
    if work.len() / 2 <= s.closed {
        return s.closed + 1;
    }
    let at = work.len() - 2 * s.closed - 2;
    let code = run_code(s.last);
    work[at] = s.last.place as u64;
    work[at + 1] = code;
    s.closed + 1
}

// One field more, the row behind it given.
fn add_run(s: Runs, field: Run, row: usize, work: &mut [u64]) -> Runs
    requires { field.place + field.size < 4294967296 }
    ensures { ListsOne (as_field field) row s work.old result work.new }
{
    if joins_run(s.last, field) {
        let size = field.place - s.last.place + field.size;
        return Runs {
            row,
            last: Run { size, ..s.last },
            ..s
        };
    }
    let closed = store_run(s, work);
    Runs {
        row,
        closed,
        last: field,
    }
}

// Lists the runs of a type that is admitted to comparison and has a size: two words a run from the workspace's end on, the latest run first.
// An answer below `most` is their number; a workspace that is too short for them holds nothing of use. The walk stops when `most` runs are
// closed, more than the caller can use, so an answer of `most` or more tells no number, and the workspace then holds nothing of use: no error,
// since the caller then goes on without runs. Cost: until then a step for each row of the type, an enumeration's members excepted, and so for
// each entry of an array whose base is no field that counts whole.
pub fn list_runs(table: &[u32], pool: &[u8], size: u32, most: usize, work: &mut [u64]) -> u64
    requires { Admits table.now pool.now size }
    ensures { RunsListed most (runs_of (fields_in_of table.now pool.now)) result work.old work.new }
{
    let start = Runs {
        row: 0,
        closed: 0,
        last: Run {
            place: 0,
            size: 0,
            ended: false,
        },
    };
    let Some(entry) = row_entry(table, 0) else {
        return 0;
    };
    let walk = Walk {
        table,
        pool,
        limit: size as usize,
        most,
    };
    let s = walk.list_type(Path::outermost(), entry, 0, start, work);
    store_run(s, work) as u64
}
