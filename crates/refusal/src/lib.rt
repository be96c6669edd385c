// The refusals of document 01, with their numbers and values.
#![tactic(auto)]

ghost use Rattle.std.specs.Prelude.{◌≡◌, Some, None};
ghost use Rattle.refusal.specs.Refusal.{number_of, values_from, refused_text};

use std::fmt;

// Why a call gives no result. The comment names the Rust's `FormatError` that the case stands for, where there is one.
#[derive(Clone, Copy, Debug, PartialEq, Eq)]
pub enum Refusal {
    // 1. The rows and pool do not set out exactly one type.
    BadTable,
    // 2. Level 33 is entered.
    TooDeep,
    // 3. A further row is wanted.
    TooMany,
    // 4. (expected, available): `UnexpectedEof`.
    Short(usize, usize),
    // 5. (version): a header is above the version limit.
    TooNew(u8),
    // 6. (class): `InvalidDatatypeClass`.
    BadClass(u8),
    // 7. (class, version): `InvalidDatatypeVersion`.
    BadVersion(u8, u8),
    // 8. (code): `InvalidStringPadding`.
    BadPadding(u8),
    // 9. (code): `InvalidCharacterSet`.
    BadCharset(u8),
    // 10. (code): `InvalidReferenceType`.
    BadReferenceKind(u8),
    // 11. A piece is found whole and does not fit the pool.
    PoolFull,
    // 12. (class): `ZeroSizedDatatype`.
    ZeroSize(u8),
    // 13. The edition is not 1, 2 or 3.
    NoSuchEdition,
    // 14. The type cannot be stored in a message.
    Unstorable,
    // 15. An array in edition 1.
    NotInEdition,
    // 16. A member ends past its compound, or an array's true size passes 4,294,967,295.
    OutsideRecord,
    // 17. A comparison of a type that holds a variable-length type or a region reference.
    HeapHeld,
    // 18. A record does not have the type's size.
    WrongLength,
    // 19. The slots cannot be mapped: the Rust's `None`.
    Unmapped,
    // 20. A slot + 8 exceeds the record size.
    SlotOutside,
    // 21. (needed): the lent output is too short.
    NoRoom(u64),
}

// `refused`, number and values.
impl fmt::Display for Refusal {
    ghost output = { λ e. Some (refused_text e) };

    fn fmt<W: fmt::Write>(&self, f: &mut fmt::Formatter<W>) -> fmt::Result {
        let number = number(*self);
        let values = values(*self);
        match (values.first, values.second) {
            (Some(first), Some(second)) => write!(f, "refused {number} {first} {second}"),
            (Some(first), None) => write!(f, "refused {number} {first}"),
            (None, _) => write!(f, "refused {number}"),
        }
    }
}

// The values of a refusal.
#[derive(Clone, Copy)]
pub struct RefusalValues {
    pub first: Option<u64>,
    pub second: Option<u64>,
}

// Document 01's number of a refusal.
pub fn number(refusal: Refusal) -> u32
    ensures { result ≡ number_of refusal }
{
    match refusal {
        Refusal::BadTable => 1,
        Refusal::TooDeep => 2,
        Refusal::TooMany => 3,
        Refusal::Short(_, _) => 4,
        Refusal::TooNew(_) => 5,
        Refusal::BadClass(_) => 6,
        Refusal::BadVersion(_, _) => 7,
        Refusal::BadPadding(_) => 8,
        Refusal::BadCharset(_) => 9,
        Refusal::BadReferenceKind(_) => 10,
        Refusal::PoolFull => 11,
        Refusal::ZeroSize(_) => 12,
        Refusal::NoSuchEdition => 13,
        Refusal::Unstorable => 14,
        Refusal::NotInEdition => 15,
        Refusal::OutsideRecord => 16,
        Refusal::HeapHeld => 17,
        Refusal::WrongLength => 18,
        Refusal::Unmapped => 19,
        Refusal::SlotOutside => 20,
        Refusal::NoRoom(_) => 21,
    }
}

// Document 01's values of a refusal.
pub fn values(refusal: Refusal) -> RefusalValues
    ensures { result ≡ values_from refusal }
{
    match refusal {
        Refusal::Short(expected, available) => two(expected as u64, available as u64),
        Refusal::TooNew(version) => one(u64::from(version)),
        Refusal::BadClass(class) => one(u64::from(class)),
        Refusal::BadVersion(class, version) => two(u64::from(class), u64::from(version)),
        Refusal::BadPadding(code) => one(u64::from(code)),
        Refusal::BadCharset(code) => one(u64::from(code)),
        Refusal::BadReferenceKind(code) => one(u64::from(code)),
        Refusal::ZeroSize(class) => one(u64::from(class)),
        Refusal::NoRoom(needed) => one(needed),
        Refusal::BadTable => none(),
        Refusal::TooDeep => none(),
        Refusal::TooMany => none(),
        Refusal::PoolFull => none(),
        Refusal::NoSuchEdition => none(),
        Refusal::Unstorable => none(),
        Refusal::NotInEdition => none(),
        Refusal::OutsideRecord => none(),
        Refusal::HeapHeld => none(),
        Refusal::WrongLength => none(),
        Refusal::Unmapped => none(),
        Refusal::SlotOutside => none(),
    }
}

fn none() -> RefusalValues
    ensures { result ≡ record { first = None; second = None } }
{
    RefusalValues {
        first: None,
        second: None,
    }
}

fn one(first: u64) -> RefusalValues
    ensures { result ≡ record { first = Some first; second = None } }
{
    RefusalValues {
        first: Some(first),
        second: None,
    }
}

fn two(first: u64, second: u64) -> RefusalValues
    ensures { result ≡ record { first = Some first; second = Some second } }
{
    RefusalValues {
        first: Some(first),
        second: Some(second),
    }
}
