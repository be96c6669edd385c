// The first of each record of two blocks, as the search for them left it.
ghost use Rattle.std.specs.Prelude.{◌≡◌, ◌<◌, get_or};
ghost use Rattle.firsts.specs.Found.{Standing, numbers_in};

use crate::counts::name_of;
use crate::plain::first_of;
use crate::records::Records;

// What the steps behind the search share: n records of two blocks, and the workspace with the first of each, where it has heads.
#[derive(Clone, Copy)]
pub struct Found<'a> {
    pub table: &'a [u32],
    pub pool: &'a [u8],
    pub records: Records<'a>,
    pub n: usize,
    pub buckets: Option<usize>,
    pub work: &'a [u64],
}

impl<'a> Found<'a> {
    // The first of record k: out of the workspace, or sought where that has no heads. Inlined, so that a loop over the records passes no struct
    // through memory.
    #[inline(always)]
    pub fn first_at(self, k: usize) -> usize
        requires { Standing self × (k < self.n) }
        ensures { result ≡ get_or (numbers_in self.entry) k 0 }
    {
        match self.buckets {
            None => first_of(self.table, self.pool, self.records, k),
            Some(heads) => name_of(self.n, heads, k, self.work),
        }
    }
}
