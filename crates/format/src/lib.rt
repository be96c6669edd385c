// Types that the definitions of the format speak of. The definitions are in specs/, their theorems in proofs/.
#![tactic(auto)]

// The first eight bytes of a datatype message, the third flag byte left out: nothing reads it.
#[derive(Clone, Copy)]
pub struct Header {
    pub class: u8,
    pub version: u8,
    pub f0: u8,
    pub f1: u8,
    pub size: u32,
}
