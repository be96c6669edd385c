// The first of each record of two blocks of one type: the earliest record that is the same.
#![tactic(auto)]

mod chains;
pub mod counts;
pub mod found;
mod plain;
pub mod records;

ghost use Rattle.std.specs.Prelude.{◌≡◌, length, get_or};
ghost use Rattle.groups.specs.Duplicates.{fields_in_of};
ghost use Rattle.groups.specs.Runs.{runs_of};
ghost use Rattle.compare.specs.Agreeing.{Admits};
ghost use Rattle.groups.specs.Groups.{distinct_of};
ghost use Rattle.firsts.specs.Finding.{Heads, FirstsAre};
ghost use Rattle.firsts.specs.Found.{Standing};
ghost use Rattle.firsts.specs.Records.{keys_in, Comparable};

use chains::Chains;
use found::Found;
use keys::seeded;
use plain::count_firsts;
use records::Records;
use runs::list_runs;

// How many records are distinct, and how many heads stand in the workspace before the links and firsts; none where it was too short for them.
#[derive(Clone, Copy)]
pub struct Firsts {
    pub buckets: Option<usize>,
    pub distinct: usize,
}

// The first word of a workspace, or 0.
fn first_word(work: &[u64]) -> u64
    ensures { result ≡ get_or work.now 0 0 }
{
    work.first().copied().unwrap_or(0)
}

// Lists the runs of the type at the workspace's end. The answer is how many heads it has room for before the links and firsts of n records and
// the runs; none where it is too short, or where there are too few records for it to be of use.
fn list_type(table: &[u32], pool: &[u8], size: u32, n: usize, work: &mut [u64]) -> Option<usize>
    requires { Admits table.now pool.now size }
    ensures { Heads (runs_of (fields_in_of table.now pool.now)) n result work.new }
{
    if n < 2 {
        return None;
    }
    if work.len() / 2 <= n {
        return None;
    }
    let room = work.len() - 2 * n;
    // One run more than fit beside a head.
    let most = (room - 1) / 2 + 1;
    let runs = list_runs(table, pool, size, most, work);
    if runs >= most as u64 {
        return None;
    }
    Some(room - 2 * (runs as usize))
}

// How many of the records of two blocks are distinct, with the first of each in the workspace where it has the room: by chains there, else each
// record against those before it.
pub fn find_firsts<'a>(table: &[u32], pool: &[u8], records: Records<'a>, work: &mut [u64]) -> Firsts
    requires { Comparable table.now pool.now records }
    ensures { FirstsAre (keys_in table.now pool.now records.entry) (length (keys_in table.now pool.now records.entry)) result work.new }
{
    let n = records.count();
    let m = seeded(first_word(work));
    let buckets = list_type(table, pool, records.size, n, work);
    let distinct = match buckets {
        None => count_firsts(table, pool, records),
        Some(heads) => {
            let chains = Chains {
                records,
                n,
                m,
                buckets: heads,
            };
            chains.count_all(work)
        }
    };
    Firsts { buckets, distinct }
}

// The same search, with all that the steps behind it need in one value, and how many records are distinct.
pub fn search<'a>(
    table: &'a [u32],
    pool: &'a [u8],
    records: Records<'a>,
    work: &'a mut [u64],
) -> (Found<'a>, usize)
    requires { Comparable table.now pool.now records }
    ensures standing { Standing result.0 }
    ensures given { (result.0.table.now ≡ table.now) × (result.0.pool.now ≡ pool.now) × (result.0.records ≡ records.entry) }
    ensures distinct { result.1 ≡ distinct_of (keys_in table.now pool.now records.entry) }
{
    let n = records.count();
    let firsts = find_firsts(table, pool, records, work);
    let found = Found {
        table,
        pool,
        records,
        n,
        buckets: firsts.buckets,
        work,
    };
    (found, firsts.distinct)
}
