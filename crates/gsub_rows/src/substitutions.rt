// Rows of the subtables of lookup types 1 to 4 and 8, and of what hangs on them.
use crate::common::set_of;
use crate::runs::{FEWER, Row, UINT16, is, many, offset16, one, run};
use gsub::Kind;

// substFormat, coverageOffset, deltaGlyphID
pub const SINGLE_SUBST_1: Row = &[one!(is!(1), offset16!(Kind::Coverage), UINT16)];

// substFormat, coverageOffset, glyphCount; substituteGlyphIDs
pub const SINGLE_SUBST_2: Row = &[
    one!(is!(2), offset16!(Kind::Coverage), UINT16),
    many!(UINT16),
];

// substFormat, coverageOffset, the count of tables of this kind; their offsets
macro_rules! covered_list {
    ($kind:expr) => {
        &[
            one!(is!(1), offset16!(Kind::Coverage), UINT16),
            many!(offset16!($kind)),
        ]
    };
}

pub const MULTIPLE_SUBST: Row = covered_list!(Kind::Sequence);

pub const ALTERNATE_SUBST: Row = covered_list!(Kind::AlternateSet);

pub const LIGATURE_SUBST: Row = covered_list!(Kind::LigatureSet);

// Of a Sequence or an AlternateSet: glyphCount; substituteGlyphIDs or alternateGlyphIDs
pub const GLYPH_LIST: Row = &[one!(UINT16), many!(UINT16)];

pub const LIGATURE_SET: Row = set_of!(Kind::Ligature);

// ligatureGlyph, componentCount; componentGlyphIDs
pub const LIGATURE: Row = &[one!(UINT16, UINT16), run!(FEWER; UINT16)];

// substFormat, coverageOffset, backtrackGlyphCount; backtrackCoverageOffsets; lookaheadGlyphCount; lookaheadCoverageOffsets; glyphCount; substituteGlyphIDs
pub const REVERSE_CHAIN_SINGLE_SUBST: Row = &[
    one!(is!(1), offset16!(Kind::Coverage), UINT16),
    many!(offset16!(Kind::Coverage)),
    one!(UINT16),
    many!(offset16!(Kind::Coverage)),
    one!(UINT16),
    many!(UINT16),
];
