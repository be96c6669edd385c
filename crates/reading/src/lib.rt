// What the reader's functions hand to each other, the row that ends a type, and the codes of a string. Their contracts are in specs/, the
// laws that prove them in proofs/.
#![tactic(auto)]

ghost use Rattle.std.specs.Prelude.{◌≡◌, ◌+◌, ◌*◌, ◌<◌, ◌≤◌, length};
ghost use Rattle.reading.specs.Contract.{EndsRow, StringCodes};

use primitives::put_row;
use refusal::Refusal;

// The highest version allowed, and how many rows and pool bytes there are.
#[derive(Clone, Copy)]
pub struct Limits {
    pub version: u32,
    pub rows: usize,
    pub pool: usize,
}

// How far reading has come: bytes of the message, rows and pool bytes used.
#[derive(Clone, Copy)]
pub struct Cursor {
    pub at: usize,
    pub rows: usize,
    pub pooled: usize,
}

impl Cursor {
    // The same place, counted in a message that holds the part read from `from` on.
    #[inline(always)]
    pub fn behind(self, from: usize) -> Self
        requires { from + self.at < 18446744073709551616 }
        ensures { result ≡ record { at = from + self.at; rows = self.rows; pooled = self.pooled } }
    {
        Cursor {
            at: from + self.at,
            ..self
        }
    }
}

// A type that was read: where it ends, and its size.
#[derive(Clone, Copy)]
pub struct State {
    pub end: Cursor,
    pub size: u32,
}

// The classes of a type with no type inside.
#[derive(Clone, Copy)]
pub enum LeafKind {
    FixedPoint,
    FloatingPoint,
    Time,
    String,
    BitField,
    Opaque,
    Reference,
}

// What stands around a type inside: names and values of an enumeration, nothing, or dimensions, by where they begin and their number.
#[derive(Clone, Copy)]
pub enum Around {
    Enumeration,
    VariableLength,
    Array(usize, usize),
}

// The type inside a class 8, 9 or 10 type: where its message begins, the place in the pool behind the dimensions, and what stands around it.
#[derive(Clone, Copy)]
pub struct Base {
    pub from: usize,
    pub place: usize,
    pub around: Around,
}

// What a header begins: a type with no type inside, a compound in the layout of a version, or a type over a base. The header is
// passed beside it, so that the answer stays in registers.
#[derive(Clone, Copy)]
pub enum Opened {
    Leaf(LeafKind),
    Compound(u8),
    Based(Base),
}

// A type's own row, and how far reading has come behind the type. A type of size 0 is refused, by its class.
// Inlined, and the answer built field by field, so that it stays in registers: with `end` copied whole, reading takes 4 to 8 in 100
// instructions more.
#[inline(always)]
pub fn end_row(
    table: &mut [u32],
    used: usize,
    class: u8,
    words: [u32; 16],
    end: Cursor,
    size: u32,
) -> Result<State, Refusal>
    requires { (used * 16 + 16 ≤ length table.old) × (length words ≡ 16) }
    ensures { EndsRow used class words end size result table.old table.new }
{
    if size == 0 {
        return Err(Refusal::ZeroSize(class));
    }
    put_row(table, used, words);
    Ok(State {
        end: Cursor {
            at: end.at,
            rows: end.rows,
            pooled: end.pooled,
        },
        size,
    })
}

// The codes of a string, of class 3 or 9: BadPadding, BadCharset.
pub fn check_codes(padding: u8, charset: u8) -> Result<(), Refusal>
    ensures { StringCodes padding charset result }
{
    if padding > 2 {
        return Err(Refusal::BadPadding(padding));
    }
    if charset > 1 {
        return Err(Refusal::BadCharset(charset));
    }
    Ok(())
}
