// The multipliers of a hash.
ghost use Rattle.std.specs.Prelude.{◌≤◌};

// Two multipliers of a hash, below 2^28, so that no step passes 64 bits.
#[derive(Clone, Copy)]
pub struct Multipliers {
    pub first: u64,
    pub second: u64,
    pub ghost first_small: { first ≤ 268435455 },
    pub ghost second_small: { second ≤ 268435455 },
}
