// The functions for C and Rust hosts. A slice is a pointer and a length. Each but `class_may_hold_object_address` returns 0 or the refusal's
// number, and puts its result, or the refusal's values, into `first` and `second` (0 where there is none).
#![tactic(auto)]

mod told;

ghost use Rattle.std.specs.Prelude.{◌≡◌, [], ◌∷◌, min, length};
ghost use Rattle.format.specs.Bytes.{zeros};
ghost use Rattle.format.specs.Message.{writing};
ghost use Rattle.format.specs.Outcome.{output_after};
ghost use Rattle.format.specs.Ownership.{comparing};
ghost use Rattle.format.specs.Reading.{reading, table_after, pool_after};
ghost use Rattle.format.specs.Sizes.{sizing, element_sizing, class_may_hold_object_address_of, object_address_held, file_address_held};
ghost use Rattle.format.specs.Slots.{finding_slots, referencing};
ghost use Rattle.compare.specs.Agreeing.{same_or_differs};
ghost use Rattle.table.specs.Survey.{yes_or_no, held_values, size_values};
ghost use Rattle.table.specs.Names.{name_of, name_place};
ghost use Rattle.table.specs.Extent.{extending, extent_values};
ghost use Rattle.references.specs.References.{places_after, values_after};
ghost use Rattle.groups.specs.Duplicates.{duplicating};
ghost use Rattle.groups.specs.Join.{joining};
ghost use Rattle.duplicates.specs.Answers.{groups_told, groups_values, numbers_given, sizes_given};
ghost use Rattle.duplicates.specs.WordCount.{words_needed};
ghost use Rattle.join.specs.Answers.{joint_told, joint_values, bytes_given};
ghost use Rattle.abi.specs.Answers.{Tells};

use compare::same;
use duplicates::{duplicates, duplicates_words};
use join::join;
use reader::read;
use references::stored_object_references;
use slots::embedded_reference_slots;
use table::{element_size, extent, name_part, type_size};
use told::{comparison, tell};
use writer::write;

// `read`. first: the length of the message.
#[unsafe(no_mangle)]
pub extern "C" fn datatype_read(
    data: &[u8],
    limit: u32,
    table: &mut [u32],
    pool: &mut [u8],
    first: &mut u64,
    second: &mut u64,
) -> u32
    ensures told { Tells (λ x. x.consumed ∷ []) (reading limit (length table.old) (length pool.old) «data».now) result first.new second.new }
    ensures table { table.new ≡ table_after (length table.old) (reading limit (length table.old) (length pool.old) «data».now) }
    ensures pool { pool.new ≡ pool_after (length pool.old) (reading limit (length table.old) (length pool.old) «data».now) }
{
    tell(read(data, limit, table, pool), first, second)
}

// `write`. first: the length of the message.
#[unsafe(no_mangle)]
pub extern "C" fn datatype_write(
    table: &[u32],
    pool: &[u8],
    edition: u32,
    out: &mut [u8],
    first: &mut u64,
    second: &mut u64,
) -> u32
    ensures told { Tells (λ s. length s ∷ []) (writing table.now pool.now edition (length out.old)) result first.new second.new }
    ensures out { out.new ≡ output_after out.old (writing table.now pool.now edition (length out.old)) }
{
    tell(write(table, pool, edition, out), first, second)
}

// `same`. first: 0 same, 1 differs.
#[unsafe(no_mangle)]
pub extern "C" fn datatype_compare(
    table: &[u32],
    pool: &[u8],
    a: &[u8],
    b: &[u8],
    first: &mut u64,
    second: &mut u64,
) -> u32
    ensures told { Tells same_or_differs (comparing table.now pool.now a.now b.now) result first.new second.new }
{
    tell(comparison(same(table, pool, a, b)), first, second)
}

// `type_size`. first: the size.
#[unsafe(no_mangle)]
pub extern "C" fn datatype_size(
    table: &[u32],
    pool: &[u8],
    first: &mut u64,
    second: &mut u64,
) -> u32
    ensures told { Tells size_values (sizing table.now pool.now) result first.new second.new }
{
    tell(type_size(table, pool), first, second)
}

// `element_size`. first: the size.
#[unsafe(no_mangle)]
pub extern "C" fn datatype_element_size(
    table: &[u32],
    pool: &[u8],
    first: &mut u64,
    second: &mut u64,
) -> u32
    ensures told { Tells size_values (element_sizing table.now pool.now) result first.new second.new }
{
    tell(element_size(table, pool), first, second)
}

// `extent`. first: the rows, second: the pool bytes that the type uses.
#[unsafe(no_mangle)]
pub extern "C" fn datatype_extent(
    table: &[u32],
    pool: &[u8],
    first: &mut u64,
    second: &mut u64,
) -> u32
    ensures told { Tells extent_values (extending table.now pool.now) result first.new second.new }
{
    tell(extent(table, pool), first, second)
}

// `embedded_reference_slots`. first: the count.
#[unsafe(no_mangle)]
pub extern "C" fn datatype_slots(
    table: &[u32],
    pool: &[u8],
    out: &mut [u64],
    first: &mut u64,
    second: &mut u64,
) -> u32
    ensures told { Tells (λ s. length s ∷ []) (finding_slots table.now pool.now (length out.old)) result first.new second.new }
    ensures out { out.new ≡ output_after out.old (finding_slots table.now pool.now (length out.old)) }
{
    tell(embedded_reference_slots(table, pool, out), first, second)
}

// `duplicates`. first: the records, second: how many are distinct.
#[unsafe(no_mangle)]
pub extern "C" fn datatype_duplicates(
    table: &[u32],
    pool: &[u8],
    block: &[u8],
    numbers: &mut [u64],
    sizes: &mut [u64],
    work: &mut [u64],
    first: &mut u64,
    second: &mut u64,
) -> u32
    ensures told { Tells (λ g. groups_values (groups_told g)) (duplicating table.now pool.now block.now (length numbers.old) (length sizes.old)) result first.new second.new }
    ensures numbers { numbers.new ≡ output_after numbers.old (numbers_given (duplicating table.now pool.now block.now (length numbers.old) (length sizes.old))) }
    ensures sizes { sizes.new ≡ output_after sizes.old (sizes_given (duplicating table.now pool.now block.now (length numbers.old) (length sizes.old))) }
    ensures work { work.new ≡ zeros (length work.old) }
{
    tell(
        duplicates(table, pool, block, numbers, sizes, work),
        first,
        second,
    )
}

// `duplicates_words`. first: the words.
#[unsafe(no_mangle)]
pub extern "C" fn datatype_duplicates_words(
    table: &[u32],
    pool: &[u8],
    records: u64,
    first: &mut u64,
    second: &mut u64,
) -> u32
    ensures told { Tells (λ n. n ∷ []) (words_needed table.now pool.now records) result first.new second.new }
{
    tell(duplicates_words(table, pool, records), first, second)
}

// `join`. first: the bytes, second: the records of the joined block.
#[unsafe(no_mangle)]
pub extern "C" fn datatype_join<'a>(
    table: &[u32],
    pool: &[u8],
    a: &'a [u8],
    b: &'a [u8],
    out: &mut [u8],
    work: &mut [u64],
    first: &mut u64,
    second: &mut u64,
) -> u32
    ensures told { Tells (λ j. joint_values (joint_told j)) (joining table.now pool.now a.now b.now (length out.old)) result first.new second.new }
    ensures out { out.new ≡ output_after out.old (bytes_given (joining table.now pool.now a.now b.now (length out.old))) }
    ensures work { work.new ≡ zeros (length work.old) }
{
    tell(join(table, pool, a, b, out, work), first, second)
}

// `stored_object_references`. first: the count.
#[unsafe(no_mangle)]
pub extern "C" fn datatype_references(
    block: &[u8],
    record_size: u64,
    slots: &[u64],
    places: &mut [u64],
    values: &mut [u64],
    first: &mut u64,
    second: &mut u64,
) -> u32
    ensures told { Tells (λ x. length x.places ∷ []) (referencing block.now record_size slots.now (min (length places.old) (length values.old))) result first.new second.new }
    ensures places { places.new ≡ places_after places.old (referencing block.now record_size slots.now (min (length places.old) (length values.old))) }
    ensures values { values.new ≡ values_after values.old (referencing block.now record_size slots.now (min (length places.old) (length values.old))) }
{
    tell(
        stored_object_references(block, record_size, slots, places, values),
        first,
        second,
    )
}

// `member_name`, as a part of the pool. first: its place, second: its length; 0 and 0 where there is none.
#[unsafe(no_mangle)]
pub extern "C" fn datatype_member_name(
    table: &[u32],
    pool: &[u8],
    row: u64,
    first: &mut u64,
    second: &mut u64,
) -> u32
    ensures number { result ≡ 0 }
    ensures first { first.new ≡ name_place table.now pool.now row }
    ensures second { second.new ≡ length (name_of table.now pool.now row) }
{
    let part = name_part(table, pool, row as usize);
    *first = part.place as u64;
    *second = part.length as u64;
    0
}

// `datatype_holds_object_address`. first: 0 no, 1 yes.
#[unsafe(no_mangle)]
pub extern "C" fn datatype_holds_object_address(
    table: &[u32],
    pool: &[u8],
    first: &mut u64,
    second: &mut u64,
) -> u32
    ensures told { Tells held_values (object_address_held table.now pool.now) result first.new second.new }
{
    tell(
        table::datatype_holds_object_address(table, pool),
        first,
        second,
    )
}

// `datatype_holds_file_address`. first: 0 no, 1 yes.
#[unsafe(no_mangle)]
pub extern "C" fn datatype_holds_file_address(
    table: &[u32],
    pool: &[u8],
    first: &mut u64,
    second: &mut u64,
) -> u32
    ensures told { Tells held_values (file_address_held table.now pool.now) result first.new second.new }
{
    tell(
        table::datatype_holds_file_address(table, pool),
        first,
        second,
    )
}

// `class_may_hold_object_address`: 0 no, 1 yes.
#[unsafe(no_mangle)]
pub extern "C" fn class_may_hold_object_address(byte: u8) -> u32
    ensures { result ≡ yes_or_no (class_may_hold_object_address_of byte) }
{
    u32::from(table::class_may_hold_object_address(byte))
}
