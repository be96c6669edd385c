// A workspace of heads, then n links, then n firsts: the firsts counted. The records themselves are not looked at.
ghost use Rattle.std.specs.Prelude.{◌≡◌, ◌+◌, ◌≤◌, ◌<◌, length, get_or};
ghost use Rattle.groups.specs.Groups.{firsts_to};
ghost use Rattle.groups.specs.Chains.{names_in, Named, Tallied};

// The first of record k, as the workspace has it.
pub fn name_of(n: usize, buckets: usize, k: usize, work: &[u64]) -> usize
    requires k_lt_n { (k < n) × (buckets + n + n ≤ length work.now) }
    requires k_bound { get_or (names_in n buckets work.now) k 0 ≤ k }
    ensures { Named (names_in n buckets work.now) k result }
{
    work[buckets + n + k] as usize
}

// Record k's first, which one entry more names: counts stand where the links stood.
fn tally_one(n: usize, buckets: usize, k: usize, work: &mut [u64]) -> usize
    requires k_lt_n { k < n }
    requires tallied { Tallied (names_in n buckets work.old) n buckets k work.old }
    ensures { Named (names_in n buckets work.old) k result × Tallied (names_in n buckets work.old) n buckets (k + 1) work.new }
{
    let f = name_of(n, buckets, k, work);
    work[buckets + k] = 0;
    let c = work[buckets + f];
    work[buckets + f] = c + 1;
    f
}

// Puts how many entries name record j in place of its link, and counts the firsts.
pub fn tally(n: usize, buckets: usize, work: &mut [u64]) -> usize
    requires { Tallied (names_in n buckets work.old) n buckets 0 work.old }
    ensures { (result ≡ length (firsts_to (names_in n buckets work.old) n)) × Tallied (names_in n buckets work.old) n buckets n work.new }
{
    let mut d = 0;
    for k in 0..n {
        let f = tally_one(n, buckets, k, work);
        if f == k {
            d += 1;
        }
    }
    d
}
