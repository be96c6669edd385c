// The plain path: each record of two blocks against those before it, with no workspace.
ghost use Rattle.std.specs.Prelude.{◌≡◌, ◌<◌, length};
ghost use Rattle.groups.specs.Groups.{first_of, distinct_of};
ghost use Rattle.firsts.specs.Records.{keys_in, Comparable};

use crate::records::Records;
use compare::same_records;

// The number of the first record that is the same as record k.
pub fn first_of<'a>(table: &[u32], pool: &[u8], records: Records<'a>, k: usize) -> usize
    requires comparable { Comparable table.now pool.now records }
    requires k_in_bounds { k < length (keys_in table.now pool.now records) }
    ensures { result ≡ first_of (keys_in table.now pool.now records.entry) k }
{
    for j in 0..k {
        if same_records(table, pool, records.get(j), records.get(k)) {
            return j;
        }
    }
    k
}

// How many records have no earlier one that is the same.
pub fn count_firsts<'a>(table: &[u32], pool: &[u8], records: Records<'a>) -> usize
    requires { Comparable table.now pool.now records }
    ensures { result ≡ distinct_of (keys_in table.now pool.now records.entry) }
{
    let mut d = 0;
    for k in 0..records.count() {
        if first_of(table, pool, records, k) == k {
            d += 1;
        }
    }
    d
}
