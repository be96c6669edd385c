// The types with no type inside: classes 0 to 5 and 7. Each checks its codes and seeks its properties whole; `read_leaf` stores the
// row.
#![tactic(auto)]

ghost use Rattle.std.specs.Prelude.{◌≡◌, ◌+◌, ◌<◌, ◌≤◌, length, true};
ghost use Rattle.format.specs.Reading.{class_kind, sized};
ghost use Rattle.reading.specs.Contract.{run, Ready, AfterType, leaf_kind, kind_of_leaf, read_leaf_of};
ghost use Rattle.reading.specs.declared.LeafKind.{LeafKind};
ghost use Rattle.reading.specs.declared.LeafKind.TheVariants.{FloatingPoint, Time, String, Opaque, Reference};
ghost use Rattle.reader_leaf.specs.Describing.{Describes, IsBits};

use format::Header;
use primitives::{bit, copy_bytes, float_order, high4, low4, padding_to_8, read_uint};
use reading::{Cursor, LeafKind, Limits, State, check_codes, end_row};
use refusal::Refusal;

// The words of a leaf's row, and where its properties end.
#[derive(Clone, Copy)]
struct Properties {
    words: [u32; 16],
    end: usize,
}

// A fixed point's or a bit field's, by its kind; a bit field is not signed.
#[inline(always)]
fn read_bits(data: &[u8], header: Header, kind: u32, signed: u32) -> Result<Properties, Refusal>
    ensures { (k : LeafKind) → IsBits k header kind signed → Describes «data».now header k result }
{
    if data.len() < 12 {
        return Err(Refusal::Short(12, data.len()));
    }
    let order = bit(header.f0, 0);
    let offset = read_uint(data, 8, 2);
    let precision = read_uint(data, 10, 2);
    Ok(Properties {
        words: [
            kind,
            header.size,
            0,
            0,
            0,
            order,
            signed,
            offset,
            precision,
            0,
            0,
            0,
            0,
            0,
            0,
            0,
        ],
        end: 12,
    })
}

#[inline(always)]
fn read_floating_point(data: &[u8], header: Header) -> Result<Properties, Refusal>
    ensures { Describes «data».now header FloatingPoint result }
{
    if data.len() < 20 {
        return Err(Refusal::Short(20, data.len()));
    }
    let order = float_order(header.f0);
    let offset = read_uint(data, 8, 2);
    let precision = read_uint(data, 10, 2);
    let exponent_location = u32::from(data[12]);
    let exponent_size = u32::from(data[13]);
    let mantissa_location = u32::from(data[14]);
    let mantissa_size = u32::from(data[15]);
    let bias = read_uint(data, 16, 4);
    Ok(Properties {
        words: [
            2,
            header.size,
            0,
            0,
            0,
            order,
            0,
            offset,
            precision,
            exponent_location,
            exponent_size,
            mantissa_location,
            mantissa_size,
            bias,
            0,
            0,
        ],
        end: 20,
    })
}

#[inline(always)]
fn read_time(data: &[u8], header: Header) -> Result<Properties, Refusal>
    ensures { Describes «data».now header Time result }
{
    if data.len() < 10 {
        return Err(Refusal::Short(10, data.len()));
    }
    let order = bit(header.f0, 0);
    let precision = read_uint(data, 8, 2);
    Ok(Properties {
        words: [
            3,
            header.size,
            0,
            0,
            0,
            order,
            0,
            0,
            precision,
            0,
            0,
            0,
            0,
            0,
            0,
            0,
        ],
        end: 10,
    })
}

#[inline(always)]
fn read_string(data: &[u8], header: Header) -> Result<Properties, Refusal>
    requires { 8 ≤ length «data».now }
    ensures { Describes «data».now header String result }
{
    let padding = low4(header.f0);
    let charset = high4(header.f0);
    check_codes(padding, charset)?;
    Ok(Properties {
        words: [
            4,
            header.size,
            0,
            0,
            0,
            u32::from(padding),
            u32::from(charset),
            0,
            0,
            0,
            0,
            0,
            0,
            0,
            0,
            0,
        ],
        end: 8,
    })
}

#[inline(always)]
fn read_reference(data: &[u8], header: Header) -> Result<Properties, Refusal>
    requires { 8 ≤ length «data».now }
    ensures { Describes «data».now header Reference result }
{
    let kind = low4(header.f0);
    if kind > 1 {
        return Err(Refusal::BadReferenceKind(kind));
    }
    Ok(Properties {
        words: [
            8,
            header.size,
            0,
            0,
            0,
            u32::from(kind),
            0,
            0,
            0,
            0,
            0,
            0,
            0,
            0,
            0,
            0,
        ],
        end: 8,
    })
}

// The only leaf with pool bytes. The tag's padding is counted, and need not be there.
fn read_opaque(
    data: &[u8],
    table: &mut [u32],
    pool: &mut [u8],
    limits: Limits,
    used: usize,
    pooled: usize,
    header: Header,
) -> Result<State, Refusal>
    requires { ((Ready limits used pooled table.old pool.old × (used < limits.rows)) × (8 ≤ length «data».now)) × (class_kind header.class ≡ kind_of_leaf Opaque) }
    ensures { AfterType (run (sized header (read_leaf_of header)) «data».now limits 8 (used + 1) pooled)
        «data».now limits used pooled result table.old table.new pool.old pool.new }
{
    let n = usize::from(header.f0);
    if data.len() < 8 + n {
        return Err(Refusal::Short(8 + n, data.len()));
    }
    if limits.pool - pooled < n {
        return Err(Refusal::PoolFull);
    }
    copy_bytes(data, 8, n, pool, pooled);
    end_row(
        table,
        used,
        header.class,
        [
            6,
            header.size,
            pooled as u32,
            n as u32,
            0,
            0,
            0,
            0,
            0,
            0,
            0,
            0,
            0,
            0,
            0,
            0,
        ],
        Cursor {
            at: 8 + n + padding_to_8(n),
            rows: used + 1,
            pooled: pooled + n,
        },
        header.size,
    )
}

// The kind of a class with no type inside.
fn kind_of_class(class: u8) -> LeafKind
    requires { leaf_kind (class_kind class) ≡ true }
    ensures { class_kind class ≡ kind_of_leaf result }
{
    match class {
        0 => LeafKind::FixedPoint,
        1 => LeafKind::FloatingPoint,
        2 => LeafKind::Time,
        3 => LeafKind::String,
        4 => LeafKind::BitField,
        5 => LeafKind::Opaque,
        _ => LeafKind::Reference,
    }
}

// A type with no type inside, behind its header.
pub fn read_leaf(
    data: &[u8],
    table: &mut [u32],
    pool: &mut [u8],
    limits: Limits,
    used: usize,
    pooled: usize,
    header: Header,
) -> Result<State, Refusal>
    requires { ((Ready limits used pooled table.old pool.old × (used < limits.rows)) × (8 ≤ length «data».now)) × (leaf_kind (class_kind header.class) ≡ true) }
    ensures { AfterType (run (sized header (read_leaf_of header)) «data».now limits 8 (used + 1) pooled)
        «data».now limits used pooled result table.old table.new pool.old pool.new }
{
    let leaf = kind_of_class(header.class);
    let properties = match leaf {
        LeafKind::FixedPoint => read_bits(data, header, 1, bit(header.f0, 3)),
        LeafKind::FloatingPoint => read_floating_point(data, header),
        LeafKind::Time => read_time(data, header),
        LeafKind::String => read_string(data, header),
        LeafKind::BitField => read_bits(data, header, 5, 0),
        LeafKind::Opaque => {
            return read_opaque(data, table, pool, limits, used, pooled, header);
        }
        LeafKind::Reference => read_reference(data, header),
    }?;
    end_row(
        table,
        used,
        header.class,
        properties.words,
        Cursor {
            at: properties.end,
            rows: used + 1,
            pooled,
        },
        header.size,
    )
}
