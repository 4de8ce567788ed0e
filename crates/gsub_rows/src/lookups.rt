// Rows of Lookups and Extensions, by their lookup type.
use crate::runs::{Row, Times, UINT16, is, many, offset16, offset32, one, run};
use gsub::{Kind, Scope};

// lookupType, lookupFlag, subTableCount; subtableOffsets; markFilteringSet
macro_rules! lookup_of {
    ($number:expr, $kind:expr) => {
        &[
            one!(is!($number), UINT16, UINT16),
            many!(offset16!($kind)),
            run!(Times::Marked; UINT16),
        ]
    };
}

pub const SINGLE_LOOKUPS: &[Row] = &[
    lookup_of!(1, Kind::SingleSubst),
    lookup_of!(7, Kind::Extension(Scope::Single)),
];

// Of every lookup type.
pub const LOOKUPS: &[Row] = &[
    lookup_of!(1, Kind::SingleSubst),
    lookup_of!(2, Kind::MultipleSubst),
    lookup_of!(3, Kind::AlternateSubst),
    lookup_of!(4, Kind::LigatureSubst),
    lookup_of!(5, Kind::SequenceContext),
    lookup_of!(6, Kind::ChainedSequenceContext),
    lookup_of!(7, Kind::Extension(Scope::Whole)),
    lookup_of!(8, Kind::ReverseChainSingleSubst),
];

// substFormat, extensionLookupType, extensionOffset
macro_rules! extension_of {
    ($number:expr, $kind:expr) => {
        &[one!(is!(1), is!($number), offset32!($kind))]
    };
}

pub const SINGLE_EXTENSION: Row = extension_of!(1, Kind::SingleSubst);

// Of every lookup type but 7.
pub const EXTENSIONS: &[Row] = &[
    extension_of!(1, Kind::SingleSubst),
    extension_of!(2, Kind::MultipleSubst),
    extension_of!(3, Kind::AlternateSubst),
    extension_of!(4, Kind::LigatureSubst),
    extension_of!(5, Kind::SequenceContext),
    extension_of!(6, Kind::ChainedSequenceContext),
    extension_of!(8, Kind::ReverseChainSingleSubst),
];
