// Reads a name up to its NUL and stores it, made valid UTF-8, in one pass; tells whether a name is valid.
#![tactic(auto)]

ghost use Rattle.std.specs.Prelude.{◌≡◌, [], ◌∷◌, ◌++◌, ◌-◌, ◌≤◌, ◌<◌, length, ◌&&◌, slice_index};
ghost use Rattle.format.specs.Message.{no_nul};
ghost use Rattle.format.specs.Utf8.{up_to, leads, begin, broken, going, step, carried, at_end, well_formed};
ghost use Rattle.names.specs.Pass.{state_of, lead_of, follow_of, carry_on_of, Fits, Sized, Steps};
ghost use Rattle.names.specs.Names.{Stored, Reads};

// A name, by its bytes before its NUL, and those that are stored in the pool, made valid.
#[derive(Clone, Copy)]
pub struct Name {
    pub length: usize,
    pub stored: usize,
}

// Why a name is not read: no NUL ends it, or there is no room for it.
#[derive(Clone, Copy, Debug, PartialEq, Eq)]
pub enum NameError {
    Missing,
    Full,
}

// What a byte may begin: the bytes that are to follow, and from where to where the next one lies.
#[derive(Clone, Copy)]
enum Start {
    Single,
    Ill,
    More(u8, u8, u8),
}

// The bytes of a character that is not whole yet, how many are to come, and from where to where the next one lies.
// The count stands beside the bytes: an enum by their number would hold the same bytes in three variants.
#[derive(Clone, Copy, Default)]
struct Carry {
    count: u8,
    first: u8,
    second: u8,
    third: u8,
    more: u8,
    low: u8,
    high: u8,
}

// What a byte gives out, and what is carried on.
#[derive(Clone, Copy)]
struct Stepped {
    out: [u8; 6],
    len: usize,
    next: Carry,
}

fn start_of(b: u8) -> Start
    ensures { (lead_of result ≡ up_to leads b) × Sized result }
{
    if b <= 0x7f {
        return Start::Single;
    }
    if b <= 0xc1 {
        return Start::Ill;
    }
    if b <= 0xdf {
        return Start::More(1, 0x80, 0xbf);
    }
    if b <= 0xe0 {
        return Start::More(2, 0xa0, 0xbf);
    }
    if b <= 0xec {
        return Start::More(2, 0x80, 0xbf);
    }
    if b <= 0xed {
        return Start::More(2, 0x80, 0x9f);
    }
    if b <= 0xef {
        return Start::More(2, 0x80, 0xbf);
    }
    if b <= 0xf0 {
        return Start::More(3, 0x90, 0xbf);
    }
    if b <= 0xf3 {
        return Start::More(3, 0x80, 0xbf);
    }
    if b <= 0xf4 {
        return Start::More(3, 0x80, 0x8f);
    }
    Start::Ill
}

// A byte between characters.
fn begin_with(b: u8) -> Stepped
    ensures { Steps result (begin b (up_to leads b)) }
{
    let start = start_of(b);
    match start {
        Start::Single => Stepped {
            out: [b, 0, 0, 0, 0, 0],
            len: 1,
            next: Carry::default(),
        },
        Start::Ill => Stepped {
            out: [0xef, 0xbf, 0xbd, 0, 0, 0],
            len: 3,
            next: Carry::default(),
        },
        Start::More(more, low, high) => Stepped {
            out: [0, 0, 0, 0, 0, 0],
            len: 0,
            next: Carry {
                count: 1,
                first: b,
                second: 0,
                third: 0,
                more,
                low,
                high,
            },
        },
    }
}

// A character breaks off before this byte.
fn break_off(b: u8) -> Stepped
    ensures { Steps result (broken (begin b (up_to leads b))) }
{
    let begun = begin_with(b);
    let out = begun.out;
    Stepped {
        out: [0xef, 0xbf, 0xbd, out[0], out[1], out[2]],
        len: 3 + begun.len,
        next: begun.next,
    }
}

// A character that is not whole after its second or third byte: nothing is given out yet.
fn carry_on(count: u8, first: u8, second: u8, third: u8, more: u8) -> Stepped
    ensures { result ≡ carry_on_of count first second third more }
{
    Stepped {
        out: [0, 0, 0, 0, 0, 0],
        len: 0,
        next: Carry {
            count,
            first,
            second,
            third,
            more,
            low: 0x80,
            high: 0xbf,
        },
    }
}

// A character goes on with this byte.
fn go_on(st: Carry, b: u8) -> Stepped
    requires { Fits st × (0 < st.count) }
    ensures { Steps result (going (carried (state_of st) ++ (b ∷ [])) (st.more - 1)) }
{
    if st.count == 1 {
        if st.more == 1 {
            return Stepped {
                out: [st.first, b, 0, 0, 0, 0],
                len: 2,
                next: Carry::default(),
            };
        }
        return carry_on(2, st.first, b, 0, st.more - 1);
    }
    if st.count == 2 {
        if st.more == 1 {
            return Stepped {
                out: [st.first, st.second, b, 0, 0, 0],
                len: 3,
                next: Carry::default(),
            };
        }
        return carry_on(3, st.first, st.second, b, st.more - 1);
    }
    Stepped {
        out: [st.first, st.second, st.third, b, 0, 0],
        len: 4,
        next: Carry::default(),
    }
}

fn next_step(st: Carry, b: u8) -> Stepped
    requires { Fits st }
    ensures { Steps result (step (state_of st) b) }
{
    if st.count == 0 {
        return begin_with(b);
    }
    if b < st.low {
        return break_off(b);
    }
    if st.high < b {
        return break_off(b);
    }
    go_on(st, b)
}

// Stores a byte at `pos`, if there is room; the place behind it, or one past the pool's end.
fn store_one(pool: &mut [u8], pos: usize, b: u8) -> usize
    ensures { Stored pool.old pool.new pos (b ∷ []) result }
{
    if pos < pool.len() {
        pool[pos] = b;
        return pos + 1;
    }
    pool.len() + 1
}

// Stores bytes from `pos` on, if there is room for all; the place behind them.
fn store(pool: &mut [u8], pos: usize, bytes: &[u8]) -> usize
    ensures { Stored pool.old pool.new pos bytes.now result }
{
    let end = pos.saturating_add(bytes.len());
    if end <= pool.len() {
        pool[pos..end].copy_from_slice(bytes);
    }
    end
}

// Stores what the end of a name gives out.
fn close(pool: &mut [u8], pos: usize, st: Carry) -> usize
    ensures { Stored pool.old pool.new pos (at_end (state_of st)) result }
{
    if st.count == 0 {
        return pos;
    }
    store(pool, pos, &[0xef, 0xbf, 0xbd])
}

// The name that the message begins with, stored from the start of the pool on. A name that does not fit is still followed to its NUL:
// `pos` counts its bytes, made valid, past the pool's end.
pub fn read_name(msg: &[u8], pool: &mut [u8]) -> Result<Name, NameError>
    ensures { Reads msg.now pool.old pool.new result }
{
    let mut pos: usize = 0;
    let mut st = Carry::default();
    for (i, &b) in msg.iter().enumerate() {
        if b == 0 {
            let end = close(pool, pos, st);
            if pool.len() < end {
                return Err(NameError::Full);
            }
            return Ok(Name {
                length: i,
                stored: end,
            });
        }
        if b < 0x80 && st.count == 0 {
            pos = store_one(pool, pos, b);
            continue;
        }
        let stepped = next_step(st, b);
        st = stepped.next;
        pos = store(pool, pos, &stepped.out[..stepped.len]);
    }
    Err(NameError::Missing)
}

// Where the ASCII bytes but NUL that a name begins with end. They do not decide whether it is valid.
fn plain_end(name: &[u8]) -> usize
    ensures inside { result ≤ length name.now }
    ensures before { (i : _) → i < result → (0 < slice_index name.now i) × (slice_index name.now i < 128) }
{
    name.iter()
        .position(|b| *b == 0 || *b >= 0x80)
        .unwrap_or(name.len())
}

// What is to follow a byte, by what was to follow before it.
fn follow(next: Start, b: u8) -> Start
    requires { Sized next }
    ensures { (lead_of result ≡ follow_of (lead_of next) b) × Sized result }
{
    match next {
        Start::Single => start_of(b),
        Start::Ill => Start::Ill,
        Start::More(more, low, high) => {
            if b < low || high < b {
                return Start::Ill;
            }
            if more == 1 {
                return Start::Single;
            }
            Start::More(more - 1, 0x80, 0xbf)
        }
    }
}

// Whether a name is valid UTF-8 without NUL.
pub fn valid_name(name: &[u8]) -> bool
    ensures { result ≡ (no_nul name.now && well_formed name.now) }
{
    let rest = &name[plain_end(name)..];
    let mut next = Start::Single;
    for b in rest {
        if *b == 0 {
            return false;
        }
        next = follow(next, *b);
        if matches!(next, Start::Ill) {
            return false;
        }
    }
    match next {
        Start::Single => true,
        Start::Ill => false,
        Start::More(_, _, _) => false,
    }
}
