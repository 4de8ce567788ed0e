// Rows of the subtables of lookup types 5 and 6, and of their rules.
use crate::common::set_of;
use crate::runs::{
    BY_SECOND, BY_THIRD, FEWER, FEWER_BY_FIRST, Row, UINT16, is, many, offset16, offset16_or_null,
    one, run,
};
use gsub::{Field, Kind};

// Of backtrack and lookahead glyphs, where there may be none.
const CLASS_DEF_OR_NULL: Field = offset16_or_null!(Kind::ClassDef);

// format, coverageOffset, a count of rule sets; their offsets
macro_rules! context_1 {
    ($kind:expr) => {
        &[
            one!(is!(1), offset16!(Kind::Coverage), UINT16),
            many!(offset16_or_null!($kind)),
        ]
    };
}

pub const SEQUENCE_CONTEXTS: &[Row] = &[
    context_1!(Kind::SequenceRuleSet),
    // format, coverageOffset, classDefOffset, classSeqRuleSetCount; classSeqRuleSetOffsets
    &[
        one!(
            is!(2),
            offset16!(Kind::Coverage),
            offset16!(Kind::ClassDef),
            UINT16
        ),
        many!(offset16_or_null!(Kind::SequenceRuleSet)),
    ],
    // format, glyphCount, seqLookupCount; coverageOffsets; sequenceIndex, lookupListIndex
    &[
        one!(is!(3), UINT16, UINT16),
        run!(BY_SECOND; offset16!(Kind::Coverage)),
        run!(BY_THIRD; UINT16, UINT16),
    ],
];

pub const SEQUENCE_RULE_SET: Row = set_of!(Kind::SequenceRule);

// glyphCount, seqLookupCount; inputSequence; sequenceIndex, lookupListIndex
pub const SEQUENCE_RULE: Row = &[
    one!(UINT16, UINT16),
    run!(FEWER_BY_FIRST; UINT16),
    run!(BY_SECOND; UINT16, UINT16),
];

pub const CHAINED_SEQUENCE_CONTEXTS: &[Row] = &[
    context_1!(Kind::ChainedSequenceRuleSet),
    // format, coverageOffset, backtrackClassDefOffset, inputClassDefOffset, lookaheadClassDefOffset, chainedClassSeqRuleSetCount;
    // chainedClassSeqRuleSetOffsets
    &[
        one!(
            is!(2),
            offset16!(Kind::Coverage),
            CLASS_DEF_OR_NULL,
            offset16!(Kind::ClassDef),
            CLASS_DEF_OR_NULL,
            UINT16
        ),
        many!(offset16_or_null!(Kind::ChainedSequenceRuleSet)),
    ],
    // format, backtrackGlyphCount; backtrackCoverageOffsets; inputGlyphCount; inputCoverageOffsets; lookaheadGlyphCount; lookaheadCoverageOffsets;
    // seqLookupCount; sequenceIndex, lookupListIndex
    &[
        one!(is!(3), UINT16),
        many!(offset16!(Kind::Coverage)),
        one!(UINT16),
        many!(offset16!(Kind::Coverage)),
        one!(UINT16),
        many!(offset16!(Kind::Coverage)),
        one!(UINT16),
        many!(UINT16, UINT16),
    ],
];

pub const CHAINED_SEQUENCE_RULE_SET: Row = set_of!(Kind::ChainedSequenceRule);

// backtrackGlyphCount; backtrackSequence; inputGlyphCount; inputSequence; lookaheadGlyphCount; lookaheadSequence;
// seqLookupCount; sequenceIndex, lookupListIndex
pub const CHAINED_SEQUENCE_RULE: Row = &[
    one!(UINT16),
    many!(UINT16),
    one!(UINT16),
    run!(FEWER; UINT16),
    one!(UINT16),
    many!(UINT16),
    one!(UINT16),
    many!(UINT16, UINT16),
];
