// Rows of common tables: the Header, the lists of scripts and lookups, Coverage and ClassDef.
use crate::runs::{Row, TAG, UINT16, is, many, offset16, offset16_or_null, offset32_or_null, one};
use gsub::{Kind, Scope};

// majorVersion, minorVersion, scriptListOffset, featureListOffset, lookupListOffset
macro_rules! header_10 {
    ($scope:expr) => {
        &[one!(
            is!(1),
            is!(0),
            offset16!(Kind::ScriptList),
            offset16!(Kind::FeatureList($scope)),
            offset16!(Kind::LookupList($scope))
        )]
    };
}

pub const SINGLE_HEADER_10: Row = header_10!(Scope::Single);

pub const HEADER_10: Row = header_10!(Scope::Whole);

// and featureVariationsOffset
pub const HEADER_11: Row = &[one!(
    is!(1),
    is!(1),
    offset16!(Kind::ScriptList),
    offset16!(Kind::FeatureList(Scope::Whole)),
    offset16!(Kind::LookupList(Scope::Whole)),
    offset32_or_null!(Kind::FeatureVariations)
)];

// scriptCount; scriptTag, scriptOffset
pub const SCRIPT_LIST: Row = &[one!(UINT16), many!(TAG, offset16!(Kind::Script))];

// defaultLangSysOffset, langSysCount; langSysTag, langSysOffset
pub const SCRIPT: Row = &[
    one!(offset16_or_null!(Kind::LangSys), UINT16),
    many!(TAG, offset16!(Kind::LangSys)),
];

// lookupOrderOffset, requiredFeatureIndex, featureIndexCount; featureIndices
pub const LANG_SYS: Row = &[one!(is!(0), UINT16, UINT16), many!(UINT16)];

// coverageFormat, glyphCount; glyphArray
pub const COVERAGE_1: Row = &[one!(is!(1), UINT16), many!(UINT16)];

// coverageFormat, rangeCount; startGlyphID, endGlyphID, startCoverageIndex
pub const COVERAGE_2: Row = &[one!(is!(2), UINT16), many!(UINT16, UINT16, UINT16)];

// classFormat, startGlyphID, glyphCount; classValueArray
pub const CLASS_DEF_1: Row = &[one!(is!(1), UINT16, UINT16), many!(UINT16)];

// classFormat, classRangeCount; startGlyphID, endGlyphID, class
pub const CLASS_DEF_2: Row = &[one!(is!(2), UINT16), many!(UINT16, UINT16, UINT16)];

// The count of tables of this kind; their offsets.
macro_rules! set_of {
    ($kind:expr) => {
        &[
            $crate::runs::one!($crate::runs::UINT16),
            $crate::runs::many!($crate::runs::offset16!($kind)),
        ]
    };
}

pub(crate) use set_of;

// lookupCount; lookupOffsets
pub const SINGLE_LOOKUP_LIST: Row = set_of!(Kind::Lookup(Scope::Single));

pub const LOOKUP_LIST: Row = set_of!(Kind::Lookup(Scope::Whole));
