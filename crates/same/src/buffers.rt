// Arrays of zeros. Of each no more is promised than its length, which lending it needs.
ghost use Rattle.std.specs.Prelude.{◌≡◌, length};

// For the records.
pub fn block() -> [u8; 1048576]
    ensures { 1048576 ≡ length result }
{
    [0; 1048576]
}

// For 4,096 rows.
pub fn table() -> [u32; 65536]
    ensures { 65536 ≡ length result }
{
    [0; 65536]
}
