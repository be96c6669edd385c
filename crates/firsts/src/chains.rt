// The fast path: records on chains by their hash. The workspace has `buckets` heads, then n links, then n firsts, then the runs of the type.
ghost use Rattle.std.specs.Prelude.{◌≡◌, ◌+◌, ◌≤◌, ◌<◌, length};
ghost use Rattle.format.specs.Table.{same_words};
ghost use Rattle.groups.specs.Groups.{key_at};
ghost use Rattle.groups.specs.Chains.{Sought};
ghost use Rattle.firsts.specs.Chaining.{runs_at, words_behind, keys_by, ByRuns, InBucket, Seeks, SpotIs, Repeats, Placed, Compiled, Counted, link_of};

use crate::counts::tally;
use crate::records::Records;
use keys::{Multipliers, hash_by_runs, same_by_runs};

// What all steps of the fast path share: n records, the multipliers of their hash, and how many heads the workspace has.
#[derive(Clone, Copy)]
pub struct Chains<'a> {
    pub records: Records<'a>,
    pub n: usize,
    pub m: Multipliers,
    pub buckets: usize,
}

// Where a record goes: its bucket, and its first, if that is an earlier record.
#[derive(Clone, Copy)]
pub struct Spot {
    pub bucket: usize,
    pub first: Option<usize>,
}

impl<'a> Chains<'a> {
    // The runs, which stand behind the firsts.
    fn runs(self, work: &[u64]) -> &[u64]
        requires { runs_at self ≤ length work.now }
        ensures { result.now ≡ words_behind self.entry work.now }
    {
        &work[self.buckets + self.n + self.n..]
    }

    // Whether two records are the same.
    fn same_key(self, runs: &[u64], j: usize, k: usize) -> bool
        requires by_runs { ByRuns runs.now self }
        requires j_in_bounds { (j < length (keys_by runs.now self)) × (k < length (keys_by runs.now self)) }
        ensures { result ≡ same_words (key_at (keys_by runs.now self.entry) j) (key_at (keys_by runs.now self.entry) k) }
    {
        let x = self.records.get(j);
        let y = self.records.get(k);
        same_by_runs(runs, x, y)
    }

    fn bucket_of(self, runs: &[u64], k: usize) -> usize
        requires by_runs { ByRuns runs.now self }
        requires k_in_bounds { (k < length (keys_by runs.now self)) × (0 < self.buckets) }
        ensures { InBucket runs.now self.entry k result }
    {
        let x = self.records.get(k);
        let h = hash_by_runs(runs, self.m, x);
        (h % (self.buckets as u64)) as usize
    }

    // The first of record k among those before it: down the chain of its bucket. In the workspace a link is one more than a record's number, or 0.
    // A `while` loop, because it follows links and counts nothing.
    fn find(self, runs: &[u64], k: usize, work: &[u64], bucket: usize) -> Option<usize>
        requires by_runs { ByRuns runs.now self }
        requires seeks { Seeks (keys_by runs.now self) self.buckets k work.now bucket }
        ensures { Sought (keys_by runs.now self.entry) k (link_of result) }
    {
        let mut p = work[bucket];
        while p != 0 {
            let j = (p - 1) as usize;
            if self.same_key(runs, j, k) {
                return Some(j);
            }
            p = work[self.buckets + j];
        }
        None
    }

    // Where record k goes.
    fn look_up(self, k: usize, work: &[u64]) -> Spot
        requires { Placed (words_behind self work.now) self k work.now × (k < self.n) }
        ensures { SpotIs (words_behind self.entry work.now) self.entry k result }
    {
        let runs = self.runs(work);
        let bucket = self.bucket_of(runs, k);
        let first = self.find(runs, k, work, bucket);
        Spot { bucket, first }
    }

    // Record k: its first, and its place on a chain if it is one.
    fn place_new(self, k: usize, work: &mut [u64])
        requires { Placed (words_behind self work.old) self k work.old × (k < self.n) }
        ensures { Placed (words_behind self.entry work.old) self.entry (k + 1) work.new }
    {
        let spot = self.look_up(k, work);
        let bucket = spot.bucket;
        let head = work[bucket];
        work[self.buckets + k] = head;
        match spot.first {
            None => {
                work[bucket] = (k as u64) + 1;
                work[self.buckets + self.n + k] = k as u64;
            }
            Some(first) => {
                work[self.buckets + self.n + k] = first as u64;
            }
        }
    }

    // Whether record k is the same as the one before it.
    fn repeats(self, k: usize, work: &[u64]) -> bool
        requires { Placed (words_behind self work.now) self k work.now × (k < self.n) }
        ensures { Repeats (keys_by (words_behind self.entry work.now) self.entry) k result }
    {
        if k == 0 {
            return false;
        }
        let runs = self.runs(work);
        self.same_key(runs, k - 1, k)
    }

    // Record k: with the first of the one before it if it is the same, which needs no hash.
    fn place(self, k: usize, work: &mut [u64])
        requires { Placed (words_behind self work.old) self k work.old × (k < self.n) }
        ensures { Placed (words_behind self.entry work.old) self.entry (k + 1) work.new }
    {
        if self.repeats(k, work) {
            work[self.buckets + self.n + k] = work[self.buckets + self.n + k - 1];
        } else {
            self.place_new(k, work);
        }
    }

    fn build(self, work: &mut [u64])
        requires { Placed (words_behind self work.old) self 0 work.old }
        ensures { Placed (words_behind self.entry work.old) self.entry self.entry.n work.new }
    {
        for k in 0..self.n {
            self.place(k, work);
        }
    }

    // All records on their chains. The runs stay.
    fn chain_all(self, work: &mut [u64])
        requires { Compiled self work.old }
        ensures { Placed (words_behind self.entry work.old) self.entry self.entry.n work.new }
    {
        work[..self.buckets + self.n + self.n].fill(0);
        self.build(work);
    }

    // How many are distinct, with the first of each record and how many entries name it in the workspace.
    pub fn count_all(self, work: &mut [u64]) -> usize
        requires { Compiled self work.old }
        ensures { Counted (words_behind self.entry work.old) self.entry result work.new }
    {
        self.chain_all(work);
        tally(self.n, self.buckets, work)
    }
}
