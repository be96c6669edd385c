// The records of two blocks, one behind the other.
ghost use Rattle.std.specs.Prelude.{◌≡◌, ◌++◌, ◌+◌, ◌*◌, ◌/◌, ◌≤◌, ◌<◌, length, take, drop};
ghost use Rattle.firsts.specs.Records.{both, Whole, IsRecord};

// Two blocks of records of one size.
#[derive(Clone, Copy)]
pub struct Records<'a> {
    pub a: &'a [u8],
    pub b: &'a [u8],
    pub size: u32,
}

// Record k of a block.
fn part_of(block: &[u8], size: usize, k: usize) -> &[u8]
    requires { k * size + size ≤ length block.now }
    ensures { result.now ≡ take size (drop (k * size) block.now) }
{
    let from = k * size;
    let to = from + size;
    &block[from..to]
}

// Record k of two blocks of whole records.
pub fn record_of<'a>(a: &'a [u8], b: &'a [u8], size: usize, k: usize) -> &'a [u8]
    requires { Whole a.now b.now size × (k < length (a.now ++ b.now) / size) }
    ensures { IsRecord (a.now ++ b.now) size k result.now }
{
    let first = a.len() / size;
    if k < first {
        return part_of(a, size, k);
    }
    part_of(b, size, k - first)
}

impl<'a> Records<'a> {
    // How many records both blocks have.
    pub fn count(self) -> usize
        requires { Whole self.a.now self.b.now self.size }
        ensures { result ≡ length (both self.entry) / self.entry.size }
    {
        let size = self.size as usize;
        self.a.len() / size + self.b.len() / size
    }

    // Record k.
    pub fn get(self, k: usize) -> &'a [u8]
        requires { Whole self.a.now self.b.now self.size × (k < length (both self) / self.size) }
        ensures { IsRecord (both self.entry) self.entry.size k result.now }
    {
        record_of(self.a, self.b, self.size as usize, k)
    }
}
