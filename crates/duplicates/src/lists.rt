// Numbers and sizes from the first of each record, stored into what is lent.
ghost use Rattle.std.specs.Prelude.{◌≡◌, ◌==◌, ◌+◌, ◌≤◌, ◌<◌, length, count_by};
ghost use Rattle.std.proofs.lemmas.List.Edits.{sets};
ghost use Rattle.groups.specs.Groups.{count, firsts_to, sizes_to, size_at, Grown};
ghost use Rattle.firsts.specs.Found.{Standing};
ghost use Rattle.duplicates.specs.Numbering.{Numbered};

use firsts::found::Found;

// The first of each record.
pub fn put_numbers<'a>(found: Found<'a>, numbers: &mut [u64])
    requires { Standing found × (length numbers.old ≡ found.n) }
    ensures { Numbered found.entry numbers.new }
{
    for (k, number) in numbers.iter_mut().enumerate() {
        *number = found.first_at(k) as u64;
    }
}

// How many entries are x.
fn count_entries(numbers: &[u64], x: u64) -> u64
    ensures { result ≡ count_by (λ y. y == x) numbers.now }
{
    numbers.iter().filter(|y| **y == x).count() as u64
}

// How many records have record k as their first: out of the workspace, or counted where that has no heads.
fn group_size<'a>(found: Found<'a>, numbers: &[u64], k: usize) -> u64
    requires { Numbered found numbers.now × (k < found.n) }
    ensures { result ≡ count k numbers.now }
{
    match found.buckets {
        None => count_entries(numbers, k as u64),
        Some(heads) => found.work[heads + k],
    }
}

// What number k adds to the sizes, which are g so far.
fn put_size<'a>(found: Found<'a>, numbers: &[u64], k: usize, g: usize, sizes: &mut [u64]) -> usize
    requires numbered { Numbered found numbers.now × (k < found.n) }
    requires room { g + length (size_at numbers.now k) ≤ length sizes.old }
    ensures { Grown numbers.now k g result sizes.old sizes.new }
{
    if numbers[k] == k as u64 {
        let c = group_size(found, numbers, k);
        sizes[g] = c;
        return g + 1;
    }
    g
}

// The sizes of the groups.
pub fn list_sizes<'a>(found: Found<'a>, numbers: &[u64], sizes: &mut [u64])
    requires { Numbered found numbers.now × (length (firsts_to numbers.now found.n) ≤ length sizes.old) }
    ensures { sizes.new ≡ sets sizes.old 0 (sizes_to numbers.now found.entry.n) }
{
    let mut g = 0;
    for k in 0..found.n {
        g = put_size(found, numbers, k, g, sizes);
    }
}
