// What rows are made of: fields, in runs that stand as often as a number of the table says.
use gsub::{Field, Rule};

// How often the fields of a run stand in a table: once; as often as the number at this place of the table says, less so many; as the number just before
// the run says, less so many; once where lookupFlag has USE_MARK_FILTERING_SET, else not at all.
#[derive(Clone, Copy)]
pub enum Times {
    Once,
    Count(u8, u8),
    Before(u8),
    Marked,
}

// How often its fields stand there, which they are, and how many bytes they are in all.
#[derive(Clone, Copy)]
pub struct Run {
    pub by: Times,
    pub each: &'static [Field],
    pub size: usize,
}

pub type Row = &'static [Run];

// Which of its rows a table has: its only one; by its first number, a format or a lookup type, from 1 on; by its second, from this number on.
#[derive(Clone, Copy)]
pub enum Formats {
    Only(Row),
    ByFirst(&'static [Row]),
    BySecond(usize, &'static [Row]),
}

// As often as the number just before the run says, or one fewer; as the table's second or third number says; one fewer than its first.
pub const MANY: Times = Times::Before(0);

pub const FEWER: Times = Times::Before(1);

pub const BY_SECOND: Times = Times::Count(2, 0);

pub const BY_THIRD: Times = Times::Count(4, 0);

pub const FEWER_BY_FIRST: Times = Times::Count(0, 1);

// The bytes of a field.
pub const BYTES_2: usize = 2;

const BYTES_3: usize = 3;

pub const BYTES_4: usize = 4;

// A field of so many bytes, and what it may hold.
macro_rules! field {
    ($width:expr, $rule:expr) => {
        gsub::Field {
            width: $width,
            rule: $rule,
        }
    };
}

pub const UINT16: Field = field!(BYTES_2, Rule::Any);

pub const UINT24: Field = field!(BYTES_3, Rule::Any);

pub const TAG: Field = field!(BYTES_4, Rule::Any);

// An offset to a Feature behind its tag.
pub const FEATURE_OFFSET: Field = field!(BYTES_2, Rule::ToFeature);

// A number that must be this one.
macro_rules! is {
    ($number:expr) => {
        $crate::runs::field!($crate::runs::BYTES_2, gsub::Rule::Only($number))
    };
}

// Offsets to a table of this kind, of two bytes or of four, which may not be NULL, or may.
macro_rules! offset16 {
    ($kind:expr) => {
        $crate::runs::field!($crate::runs::BYTES_2, gsub::Rule::To($kind))
    };
}

macro_rules! offset32 {
    ($kind:expr) => {
        $crate::runs::field!($crate::runs::BYTES_4, gsub::Rule::To($kind))
    };
}

macro_rules! offset16_or_null {
    ($kind:expr) => {
        $crate::runs::field!($crate::runs::BYTES_2, gsub::Rule::ToOrNull($kind))
    };
}

macro_rules! offset32_or_null {
    ($kind:expr) => {
        $crate::runs::field!($crate::runs::BYTES_4, gsub::Rule::ToOrNull($kind))
    };
}

// These fields, so often.
macro_rules! run {
    ($by:expr; $($field:expr),+) => {
        $crate::runs::Run {
            by: $by,
            each: &[$($field),+],
            size: 0 $(+ $field.width)+,
        }
    };
}

// These fields once.
macro_rules! one {
    ($($field:expr),+) => {
        $crate::runs::run!($crate::runs::Times::Once; $($field),+)
    };
}

// These fields as often as the number just before them says.
macro_rules! many {
    ($($field:expr),+) => {
        $crate::runs::run!($crate::runs::MANY; $($field),+)
    };
}

pub(crate) use field;
pub(crate) use is;
pub(crate) use many;
pub(crate) use offset16;
pub(crate) use offset16_or_null;
pub(crate) use offset32;
pub(crate) use offset32_or_null;
pub(crate) use one;
pub(crate) use run;
