// Rows of the FeatureList, Features, their parameters and their variations.
use crate::runs::{
    FEATURE_OFFSET, Row, TAG, UINT16, UINT24, is, many, offset16, offset16_or_null, offset32, one,
};
use gsub::{Kind, Params};

// featureCount; featureTag, featureOffset
pub const SINGLE_FEATURE_LIST: Row = &[one!(UINT16), many!(TAG, offset16!(Kind::Feature))];

pub const FEATURE_LIST: Row = &[one!(UINT16), many!(TAG, FEATURE_OFFSET)];

// featureParamsOffset, lookupIndexCount; lookupListIndices
macro_rules! feature_of {
    ($params:expr) => {
        &[one!($params, UINT16), many!(UINT16)]
    };
}

pub const FEATURE: Row = feature_of!(is!(0));

pub const FEATURE_WITH_SIZE: Row = feature_of!(offset16_or_null!(Kind::FeatureParams(
    Params::Size
)));

pub const FEATURE_WITH_SET: Row = feature_of!(offset16_or_null!(Kind::FeatureParams(
    Params::StylisticSet
)));

pub const FEATURE_WITH_VARIANT: Row = feature_of!(offset16_or_null!(Kind::FeatureParams(
    Params::CharacterVariant
)));

// designSize, subfamilyIdentifier, subfamilyNameID, rangeStart, rangeEnd
pub const SIZE_PARAMS: Row = &[one!(UINT16, UINT16, UINT16, UINT16, UINT16)];

// version, uiNameID
pub const STYLISTIC_SET: Row = &[one!(is!(0), UINT16)];

// format, featUiLabelNameId, featUiTooltipTextNameId, sampleTextNameId, numNamedParameters, firstParamUiLabelNameId; charCount; characters
pub const CHARACTER_VARIANT: Row = &[
    one!(is!(0), UINT16, UINT16, UINT16, UINT16, UINT16),
    one!(UINT16),
    many!(UINT24),
];

// majorVersion, minorVersion, featureVariationRecordCount in two halves; conditionSetOffset, featureTableSubstitutionOffset
pub const FEATURE_VARIATIONS: Row = &[
    one!(is!(1), is!(0), is!(0), UINT16),
    many!(
        offset32!(Kind::ConditionSet),
        offset32!(Kind::FeatureTableSubstitution)
    ),
];

// conditionCount; conditionOffsets
pub const CONDITION_SET: Row = &[one!(UINT16), many!(offset32!(Kind::Condition))];

// format, axisIndex, filterRangeMinValue, filterRangeMaxValue
pub const CONDITION: Row = &[one!(is!(1), UINT16, UINT16, UINT16)];

// majorVersion, minorVersion, substitutionCount; featureIndex, alternateFeatureOffset
pub const FEATURE_TABLE_SUBSTITUTION: Row = &[
    one!(is!(1), is!(0), UINT16),
    many!(UINT16, offset32!(Kind::Feature)),
];
