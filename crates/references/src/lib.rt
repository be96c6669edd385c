// `stored_object_references`: the references in the records of a block.
#![tactic(auto)]

ghost use Rattle.std.specs.Prelude.{◌≡◌, false, ℕ, ◌+◌, ◌*◌, ◌≤◌, ◌<◌, min, length, take, drop, get_or};
ghost use Rattle.std.proofs.lemmas.List.Edits.{sets};
ghost use Rattle.format.specs.Bytes.{number_from};
ghost use Rattle.format.specs.Slots.{record_size_of, some_outside_of, shifted, entries, values_at};
ghost use Rattle.references.specs.References.{ReferencesAre};

use refusal::Refusal;

// Whether a slot + 8 exceeds the size.
fn some_outside(slots: &[u64], size: u64) -> bool
    ensures { result ≡ some_outside_of size slots.now }
{
    slots.iter().any(|slot| size < 8 || size - 8 < *slot)
}

// The 8 bytes at a place, little-endian.
fn read_u64(block: &[u8], place: usize) -> u64
    requires { place + 8 ≤ length block.now }
    ensures { result ≡ number_from (take 8 (drop place block.now)) }
{
    let mut bytes = [0; 8];
    bytes.copy_from_slice(&block[place..place + 8]);
    u64::from_le_bytes(bytes)
}

// The references of one record, which starts at `start`, from `at` on.
fn store_record(
    block: &[u8],
    start: usize,
    slots: &[u64],
    at: usize,
    places: &mut [u64],
    values: &mut [u64],
)
    requires by_index { (i : ℕ) → i < length slots.now → start + get_or slots.now i 0 + 8 ≤ length block.now }
    requires slots_in_bounds { (at + length slots.now ≤ length places.old) × (at + length slots.now ≤ length values.old) }
    ensures { (places.new ≡ sets places.old at (shifted start slots.now)) × (values.new ≡ sets values.old at (values_at block.now (shifted start slots.now))) }
{
    for (i, slot) in slots.iter().enumerate() {
        let place = start + *slot as usize;
        places[at + i] = place as u64;
        values[at + i] = read_u64(block, place);
    }
}

// The references of so many records of one size.
fn store_records(
    block: &[u8],
    size: usize,
    records: usize,
    slots: &[u64],
    places: &mut [u64],
    values: &mut [u64],
)
    requires size_in_bounds { (records * size ≤ length block.now) × (some_outside_of size slots.now ≡ false) }
    requires slots_in_bounds { (records * length slots.now ≤ length places.old) × (records * length slots.now ≤ length values.old) }
    ensures { (places.new ≡ sets places.old 0 (entries size slots.now 0 records)) × (values.new ≡ sets values.old 0 (values_at block.now (entries size slots.now 0 records))) }
{
    for i in 0..records {
        store_record(block, i * size, slots, i * slots.len(), places, values);
    }
}

// Record size 0 counts as 1.
pub fn at_least_one(record_size: u64) -> u64
    ensures { (result ≡ record_size_of record_size) × (1 ≤ result) }
{
    record_size.max(1)
}

// The references of each whole record in turn: places in the block, and the 8-byte values there. A remainder is ignored. Refused, in this
// order: SlotOutside, NoRoom, whose room is the shorter of the two lent slices. Cost: one pass over the slots and one over the references.
pub fn stored_object_references(
    block: &[u8],
    record_size: u64,
    slots: &[u64],
    places: &mut [u64],
    values: &mut [u64],
) -> Result<u64, Refusal>
    ensures { ReferencesAre block.now record_size slots.now result places.old places.new values.old values.new }
{
    let size = at_least_one(record_size);
    if some_outside(slots, size) {
        return Err(Refusal::SlotOutside);
    }
    let records = block.len() / (size as usize);
    let needed = (records as u64).saturating_mul(slots.len() as u64);
    let room = places.len().min(values.len());
    if (room as u64) < needed {
        return Err(Refusal::NoRoom(needed));
    }
    store_records(block, size as usize, records, slots, places, values);
    Ok(needed)
}
