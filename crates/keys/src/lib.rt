// Records compared and hashed by the runs of bytes that a type counts: two words a run, as `groups` decodes them.
#![tactic(auto)]

mod multipliers;

ghost use Rattle.std.specs.Prelude.{◌≡◌, ◌==◌, [], ◌∷◌, ◌+◌, ◌*◌, ◌/◌, ◌%◌, ◌≤◌, ◌<◌, length, take, drop, position};
ghost use Rattle.format.specs.Image.{image_from, compared_of, up_to_nul};
ghost use Rattle.format.specs.Table.{same_words};
ghost use Rattle.compare.specs.Agreeing.{equal_range_of};
ghost use Rattle.groups.specs.Runs.{runs_in, Inside};
ghost use Rattle.keys.specs.Hash.{factors, seeded_by, reduced, step, hash_bytes, join_hashes_of, hash_of};
ghost use Rattle.keys.specs.Runs.{run_at, SameIn, Word};

use compare::{equal_range, equal_string};
pub use multipliers::Multipliers;

// A hash, reduced to below 2^35.
#[derive(Clone, Copy)]
struct Hash {
    value: u64,
    ghost small: { value < 34359738368 },
}

// The multipliers that a seed gives.
#[tactic(auto, unfolding(crate::specs::Hash::seeded_by))]
pub fn seeded(seed: u64) -> Multipliers
    ensures { factors result ≡ seeded_by seed }
{
    Multipliers {
        first: (seed % 4294967296 + 2654435761) % 268435455 + 1,
        second: (seed / 4294967296 + 2246822507) % 268435455 + 1,
    }
}

// The number that 4 bytes from `at` on stand for, lowest first.
fn word(x: &[u8], at: usize) -> u32
    requires { at + 4 ≤ length x.now }
    ensures { Word (take 4 (drop at x.now)) result }
{
    u32::from_le_bytes([x[at], x[at + 1], x[at + 2], x[at + 3]])
}

// The same of fewer bytes. Comparisons, since a `match` on the length is compiled to a jump by a table, which takes longer than all of them.
fn short_word(part: &[u8]) -> u32
    requires { length part.now < 4 }
    ensures { Word part.now result }
{
    let n = part.len();
    if n == 0 {
        return 0;
    }
    let first = part[0];
    if n == 1 {
        return u32::from(first);
    }
    let second = part[1];
    if n == 2 {
        return u32::from(u16::from_le_bytes([first, second]));
    }
    u32::from_le_bytes([first, second, part[2], 0])
}

// A number with the same remainder.
#[tactic(auto, unfolding(crate::specs::Hash::reduced))]
fn reduce(t: u64) -> Hash
    ensures { result.value ≡ reduced t }
{
    Hash {
        value: t % 8589934592 + t / 8589934592 * 9,
    }
}

// One step of the hash.
#[tactic(auto, using(crate::proofs::Words::step_is))]
fn step(m: Multipliers, h: Hash, v: u32, w: u32) -> Hash
    ensures { result.value ≡ step (factors m) h.value v w }
{
    reduce((h.value + u64::from(v)) * m.first + u64::from(w) * m.second)
}

// The last bytes of a part, fewer than 8. Four and more come first, since most runs that are shorter than 8 bytes have them.
#[tactic(auto, using(crate::proofs::Hashing::rest_none, crate::proofs::Hashing::rest_few))]
fn hash_rest(m: Multipliers, h: Hash, rest: &[u8]) -> Hash
    requires { length rest.now < 8 }
    ensures { result.value ≡ hash_bytes (factors m) h.value rest.now }
{
    let n = rest.len();
    if n >= 4 {
        let v = word(rest, 0);
        let w = short_word(&rest[4..]);
        return step(m, h, v, w);
    }
    if n == 0 {
        return h;
    }
    step(m, h, short_word(rest), 0)
}

// The bytes of a part, eight at a time.
fn hash_part(m: Multipliers, start: Hash, part: &[u8]) -> Hash
    ensures { result.value ≡ hash_bytes (factors m) start.value part.now }
{
    let (eights, rest) = part.as_chunks::<8>();
    let mut h = start;
    for eight in eights {
        h = step(m, h, word(eight, 0), word(eight, 4));
    }
    hash_rest(m, h, rest)
}

// Where the first NUL stands.
fn nul_at(part: &[u8]) -> Option<usize>
    ensures { result ≡ position (λ b. b == 0) part.now }
{
    part.iter().position(|b| *b == 0)
}

// A string's bytes up to and with its first NUL: all where there is none.
#[tactic(auto, using(crate::proofs::Strings::string_inside, crate::proofs::Strings::string_nul, crate::proofs::Strings::string_whole))]
fn string_part(part: &[u8]) -> &[u8]
    ensures { result.now ≡ up_to_nul part.now }
{
    match nul_at(part) {
        Some(i) => &part[..i + 1],
        None => part,
    }
}

// One run: a string up to its NUL, any other whole.
#[tactic(auto, using(crate::proofs::Walking::run_whole, crate::proofs::Walking::run_string))]
fn hash_run(m: Multipliers, h: Hash, x: &[u8], place: usize, code: u64) -> Hash
    requires { place + code / 2 ≤ length x.now }
    ensures { result.value ≡ hash_bytes (factors m) h.value (compared_of (run_at place code) x.now) }
{
    let n = (code / 2) as usize;
    let part = &x[place..place + n];
    if code % 2 == 1 {
        return hash_part(m, h, string_part(part));
    }
    hash_part(m, h, part)
}

// The hash of no bytes.
fn begun() -> Hash
    ensures { result.value ≡ 1 }
{
    Hash { value: 1 }
}

// The two hashes of a record made one.
#[tactic(auto, using(crate::proofs::Words::join_is))]
fn join_hashes(m: Multipliers, h: Hash, g: Hash) -> u64
    ensures { result ≡ join_hashes_of (factors m) h.value g.value }
{
    let once = reduce(g.value * m.second);
    let twice = reduce(once.value * m.second);
    (h.value + twice.value) % 8589934583
}

// The hash of a record's image: records that are the same by the runs have one hash. Cost: a step for each 8 bytes of a run, begun
// or whole, and a look at each byte of a string up to its NUL.
pub fn hash_by_runs(runs: &[u64], m: Multipliers, record: &[u8]) -> u64
    requires { Inside (length «record».now) (runs_in runs.now) }
    ensures { result ≡ hash_of (factors m) (runs_in runs.now) (image_from (runs_in runs.now) «record».now 0 (length «record».now)) }
{
    let mut h = begun();
    let mut g = begun();
    let (pairs, _) = runs.as_chunks::<2>();
    for pair in pairs {
        let next = hash_run(m, h, record, pair[0] as usize, pair[1]);
        h = g;
        g = next;
    }
    join_hashes(m, h, g)
}

// Whether 8 bytes of two parts of one length are equal, from `at` on.
fn same_eight(a: &[u8], b: &[u8], at: usize) -> bool
    requires { (at + 8 ≤ length a.now) × (length b.now ≡ length a.now) }
    ensures { result ≡ equal_range_of a.now b.now at 8 }
{
    if word(a, at) != word(b, at) {
        return false;
    }
    word(a, at + 4) == word(b, at + 4)
}

// Whether two parts of one length are equal, of at most 8 bytes: the first 4 and the last 4, or the first, the middle and the last.
fn same_short(a: &[u8], b: &[u8]) -> bool
    requires { (length a.now ≤ 8) × (length b.now ≡ length a.now) }
    ensures { result ≡ equal_range_of a.now b.now 0 (length a.now) }
{
    let n = a.len();
    if n >= 4 {
        if word(a, 0) != word(b, 0) {
            return false;
        }
        let last = n - 4;
        return word(a, last) == word(b, last);
    }
    if n == 0 {
        return true;
    }
    if a[0] != b[0] {
        return false;
    }
    let middle = n / 2;
    if a[middle] != b[middle] {
        return false;
    }
    let last = n - 1;
    a[last] == b[last]
}

// Whether two parts of one length are equal, of more than 8 bytes: eight at a time, and the last 8.
fn same_few(a: &[u8], b: &[u8]) -> bool
    requires { (8 < length a.now) × (length b.now ≡ length a.now) }
    ensures { result ≡ equal_range_of a.now b.now 0 (length a.now) }
{
    let n = a.len();
    for k in 0..(n - 1) / 8 {
        if !same_eight(a, b, 8 * k) {
            return false;
        }
    }
    let last = n - 8;
    same_eight(a, b, last)
}

// Whether two parts of one length are equal. Of 128 bytes and more, whole blocks side by side, and the last block. By hand: on the few bytes
// that most runs have, `==` on the two takes 1.3 to 1.5 times as long.
fn same_bytes(a: &[u8], b: &[u8]) -> bool
    requires { length b.now ≡ length a.now }
    ensures { result ≡ equal_range_of a.now b.now 0 (length a.now) }
{
    let n = a.len();
    if n <= 8 {
        return same_short(a, b);
    }
    if n < 128 {
        return same_few(a, b);
    }
    let blocks = n - n % 128;
    if equal_range(a, b, 0, blocks) {
        let last = n - 128;
        return equal_range(a, b, last, 128);
    }
    false
}

// Whether one run is the same in both. Most runs count whole and are short: for these the loop over runs makes no call.
fn same_run(a: &[u8], b: &[u8], place: usize, code: u64) -> bool
    requires { (place + code / 2 ≤ length a.now) × (length b.now ≡ length a.now) }
    ensures { SameIn (run_at place code ∷ []) a.now b.now result }
{
    let n = (code / 2) as usize;
    if code % 2 == 0 {
        let x = &a[place..place + n];
        let y = &b[place..place + n];
        if n <= 8 {
            return same_short(x, y);
        }
        return same_bytes(x, y);
    }
    equal_string(a, b, place, n)
}

// Whether each run is the same in both.
fn same_each(runs: &[u64], a: &[u8], b: &[u8]) -> bool
    requires { Inside (length a.now) (runs_in runs.now) × (length b.now ≡ length a.now) }
    ensures { SameIn (runs_in runs.now) a.now b.now result }
{
    let (all, _) = runs.as_chunks::<2>();
    for run in all {
        if !same_run(a, b, run[0] as usize, run[1]) {
            return false;
        }
    }
    true
}

// Whether two records of one length have the same image. Cost: one pass over equal bytes; where a byte differs, the runs up to the first
// that differs.
pub fn same_by_runs(runs: &[u64], a: &[u8], b: &[u8]) -> bool
    requires { Inside (length a.now) (runs_in runs.now) × (length b.now ≡ length a.now) }
    ensures { result ≡ same_words (image_from (runs_in runs.now) a.now 0 (length a.now)) (image_from (runs_in runs.now) b.now 0 (length a.now)) }
{
    if same_bytes(a, b) {
        return true;
    }
    same_each(runs, a, b)
}
