// What is read of a type before its properties or a nested message: the header, codes and versions, an array's dimensions.
#![tactic(auto)]

ghost use Rattle.std.specs.Prelude.{◌≡◌, ◌+◌, ◌<◌, ◌≤◌};
ghost use Rattle.format.specs.Reading.{class_kind};
ghost use Rattle.format.specs.Table.{isVariableLength, isArray};
ghost use Rattle.reading.specs.Contract.{Heads, Begun, Opens};

use format::Header;
use primitives::{high4, low4, permutation_bytes, read_uint, reserved_bytes};
use reading::{Around, Base, LeafKind, Limits, Opened, check_codes};
use refusal::Refusal;

// The header, once a row is free for the type: TooMany, Short 8, TooNew.
pub fn open_header(data: &[u8], limits: Limits, used: usize) -> Result<Header, Refusal>
    ensures { Heads «data».now limits used result }
{
    if limits.rows <= used {
        return Err(Refusal::TooMany);
    }
    if data.len() < 8 {
        return Err(Refusal::Short(8, data.len()));
    }
    let version = high4(data[0]);
    if limits.version < u32::from(version) {
        return Err(Refusal::TooNew(version));
    }
    Ok(Header {
        class: low4(data[0]),
        version,
        f0: data[1],
        f1: data[2],
        size: read_uint(data, 4, 4),
    })
}

// Class 9: the codes of a string.
fn open_variable(
    data: &[u8],
    limits: Limits,
    used: usize,
    pooled: usize,
    header: Header,
) -> Result<Opened, Refusal>
    requires { (Begun «data».now limits used header × (pooled ≤ limits.pool)) × (class_kind header.class ≡ isVariableLength) }
    ensures { Opens «data».now limits used pooled header result }
{
    if low4(header.f0) == 1 {
        check_codes(high4(header.f0), low4(header.f1))?;
    }
    Ok(Opened::Based(Base {
        from: 8,
        place: pooled,
        around: Around::VariableLength,
    }))
}

// Class 10: the dimensions, with the permutation of version 2.
fn open_array(
    data: &[u8],
    limits: Limits,
    used: usize,
    pooled: usize,
    header: Header,
) -> Result<Opened, Refusal>
    requires { (Begun «data».now limits used header × ((pooled ≤ limits.pool) × (limits.pool ≤ 65536))) × (class_kind header.class ≡ isArray) }
    ensures { Opens «data».now limits used pooled header result }
{
    let version = header.version;
    match version {
        2..=3 => {
            let start = 9 + reserved_bytes(version);
            if data.len() < start {
                return Err(Refusal::Short(start, data.len()));
            }
            let rank = usize::from(data[8]);
            let from = start + 4 * rank + permutation_bytes(version, rank);
            if data.len() < from {
                return Err(Refusal::Short(from, data.len()));
            }
            if limits.pool - pooled < 4 * rank {
                return Err(Refusal::PoolFull);
            }
            Ok(Opened::Based(Base {
                from,
                place: pooled + 4 * rank,
                around: Around::Array(start, rank),
            }))
        }
        _ => Err(Refusal::BadVersion(header.class, version)),
    }
}

// What a header begins, up to its properties or its first nested message.
pub fn open_headed(
    data: &[u8],
    limits: Limits,
    used: usize,
    pooled: usize,
    header: Header,
) -> Result<Opened, Refusal>
    requires { Begun «data».now limits used header × ((pooled ≤ limits.pool) × (limits.pool ≤ 65536)) }
    ensures { Opens «data».now limits used pooled header result }
{
    let class = header.class;
    match class {
        0 => Ok(Opened::Leaf(LeafKind::FixedPoint)),
        1 => Ok(Opened::Leaf(LeafKind::FloatingPoint)),
        2 => Ok(Opened::Leaf(LeafKind::Time)),
        3 => Ok(Opened::Leaf(LeafKind::String)),
        4 => Ok(Opened::Leaf(LeafKind::BitField)),
        5 => Ok(Opened::Leaf(LeafKind::Opaque)),
        6 => {
            let version = header.version;
            match version {
                1..=4 => Ok(Opened::Compound(version)),
                _ => Err(Refusal::BadVersion(6, version)),
            }
        }
        7 => Ok(Opened::Leaf(LeafKind::Reference)),
        8 => Ok(Opened::Based(Base {
            from: 8,
            place: pooled,
            around: Around::Enumeration,
        })),
        9 => open_variable(data, limits, used, pooled, header),
        10 => open_array(data, limits, used, pooled, header),
        11 => Ok(Opened::Compound(3)),
        _ => Err(Refusal::BadClass(class)),
    }
}
