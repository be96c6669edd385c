// `join`: two blocks of one type made one.
#![tactic(auto)]

ghost use Rattle.std.specs.Prelude.{◌≡◌, ◌+◌, ◌≤◌, ◌<◌, length, get_or, eqb};
ghost use Rattle.std.proofs.lemmas.List.Edits.{sets};
ghost use Rattle.groups.specs.Groups.{distinct_of};
ghost use Rattle.groups.specs.Join.{fitting_joint, joining};
ghost use Rattle.compare.specs.Agreeing.{Admits};
ghost use Rattle.firsts.specs.Found.{Standing, numbers_in};
ghost use Rattle.firsts.specs.Records.{keys_in, Comparable};
ghost use Rattle.join.specs.Answers.{joint_in, JoinAnswered, JoiningIs};
ghost use Rattle.join.specs.Copying.{added, copied, Put};

use compare::admit;
use firsts::found::Found;
use firsts::records::Records;
use firsts::search;
use primitives::copy_bytes;
use refusal::Refusal;

// How many bytes and how many records the joined block has.
#[derive(Clone, Copy)]
pub struct Joint {
    pub bytes: usize,
    pub records: u64,
}

// Whether record k has no earlier one that is the same.
#[tactic(auto, using(crate::proofs::Copying::first_told))]
fn is_first<'a>(found: Found<'a>, k: usize) -> bool
    requires { Standing found × (k < found.n) }
    ensures { result ≡ eqb (get_or (numbers_in found.entry) k 0) k }
{
    let f = found.first_at(k);
    f == k
}

// Record k behind the `to` bytes so far, if it is a first.
fn put_record<'a>(found: Found<'a>, k: usize, to: usize, out: &mut [u8]) -> usize
    requires { Standing found × (k < found.n) × (to + length (added found k) ≤ length out.old) }
    ensures { Put found.entry k to result out.old out.new }
{
    if is_first(found, k) {
        let x = found.records.get(k);
        let size = found.records.size as usize;
        let next = to + size;
        copy_bytes(x, 0, size, out, to);
        return next;
    }
    to
}

// The records that are firsts, one behind the other.
fn put_records<'a>(found: Found<'a>, out: &mut [u8])
    requires { Standing found × (length (copied found found.n) ≤ length out.old) }
    ensures { out.new ≡ sets out.old 0 (copied found.entry found.entry.n) }
{
    let mut to = 0;
    for k in 0..found.n {
        to = put_record(found, k, to, out);
    }
}

// The answer, d of the records being firsts.
fn put_joint<'a>(found: Found<'a>, d: usize, out: &mut [u8]) -> Result<Joint, Refusal>
    requires { Standing found × (d ≡ distinct_of (keys_in found.table.now found.pool.now found.records)) }
    ensures { JoinAnswered (fitting_joint (length out.old) (joint_in found.entry.table.now found.entry.pool.now found.entry.records)) result out.old out.new }
{
    let bytes = d * found.records.size as usize;
    if out.len() < bytes {
        return Err(Refusal::NoRoom(bytes as u64));
    }
    put_records(found, out);
    Ok(Joint {
        bytes,
        records: d as u64,
    })
}

// The answer for two blocks of whole records.
fn joined<'a>(
    table: &[u32],
    pool: &[u8],
    records: Records<'a>,
    out: &mut [u8],
    work: &mut [u64],
) -> Result<Joint, Refusal>
    requires { Comparable table.now pool.now records }
    ensures { JoinAnswered (fitting_joint (length out.old) (joint_in table.now pool.now records.entry)) result out.old out.new }
{
    let (found, distinct) = search(table, pool, records, work);
    put_joint(found, distinct, out)
}

// The answer for a type that is admitted and has a size.
fn sized<'a>(
    table: &[u32],
    pool: &[u8],
    a: &'a [u8],
    b: &'a [u8],
    size: u32,
    out: &mut [u8],
    work: &mut [u64],
) -> Result<Joint, Refusal>
    requires { Admits table.now pool.now size }
    ensures { JoinAnswered (joining table.now pool.now a.now b.now (length out.old)) result out.old out.new }
{
    if a.len() % (size as usize) != 0 {
        return Err(Refusal::WrongLength);
    }
    if b.len() % (size as usize) != 0 {
        return Err(Refusal::WrongLength);
    }
    joined(table, pool, Records { a, b, size }, out, work)
}

fn answer<'a>(
    table: &[u32],
    pool: &[u8],
    a: &'a [u8],
    b: &'a [u8],
    out: &mut [u8],
    work: &mut [u64],
) -> Result<Joint, Refusal>
    ensures { JoinAnswered (joining table.now pool.now a.now b.now (length out.old)) result out.old out.new }
{
    let size = admit(table, pool)?;
    sized(table, pool, a, b, size, out, work)
}

// The first block's records that have no earlier one that is the same, in order, then the second's that have none among all records before them,
// each byte for byte, into the front of `out`; the answer is how many bytes and how many records. Refused, in this order: BadTable, ZeroSize,
// OutsideRecord, HeapHeld, WrongLength for the first block, WrongLength for the second, NoRoom in bytes; a refusal leaves `out` as it is. Room
// for both blocks is always enough. The workspace is as that of `duplicates` on both blocks' records: all zero afterwards, no answer depends on
// it, with `duplicates_words` of them the time grows little faster than the blocks, and its first word seeds the hash.
pub fn join<'a>(
    table: &[u32],
    pool: &[u8],
    a: &'a [u8],
    b: &'a [u8],
    out: &mut [u8],
    work: &mut [u64],
) -> Result<Joint, Refusal>
    ensures { JoiningIs (joining table.now pool.now a.now b.now (length out.old)) result out.old out.new work.old work.new }
{
    let r = answer(table, pool, a, b, out, work);
    work.fill(0);
    r
}
