// The row of each table.
ghost use Rattle.gsub.specs.Tables.{by_number};
ghost use Rattle.gsub_rows.specs.Rows.{shapes_of, RightRows, HasShape, RowOf, RowsOf};

use crate::common::{
    CLASS_DEF_1, CLASS_DEF_2, COVERAGE_1, COVERAGE_2, HEADER_10, HEADER_11, LANG_SYS, LOOKUP_LIST,
    SCRIPT, SCRIPT_LIST, SINGLE_HEADER_10, SINGLE_LOOKUP_LIST,
};
use crate::contexts::{
    CHAINED_SEQUENCE_CONTEXTS, CHAINED_SEQUENCE_RULE, CHAINED_SEQUENCE_RULE_SET, SEQUENCE_CONTEXTS,
    SEQUENCE_RULE, SEQUENCE_RULE_SET,
};
use crate::features::{
    CHARACTER_VARIANT, CONDITION, CONDITION_SET, FEATURE, FEATURE_LIST, FEATURE_TABLE_SUBSTITUTION,
    FEATURE_VARIATIONS, FEATURE_WITH_SET, FEATURE_WITH_SIZE, FEATURE_WITH_VARIANT,
    SINGLE_FEATURE_LIST, SIZE_PARAMS, STYLISTIC_SET,
};
use crate::lookups::{EXTENSIONS, LOOKUPS, SINGLE_EXTENSION, SINGLE_LOOKUPS};
use crate::runs::{Formats, Row};
use crate::substitutions::{
    ALTERNATE_SUBST, GLYPH_LIST, LIGATURE, LIGATURE_SET, LIGATURE_SUBST, MULTIPLE_SUBST,
    REVERSE_CHAIN_SINGLE_SUBST, SINGLE_SUBST_1, SINGLE_SUBST_2,
};
use gsub::{Kind, Params, Scope};

// The rows of a table of this kind, as the definitions in gsub list its formats.
#[tactic(auto, unfolding(gsub::specs::Tables::formats, gsub::specs::Tables::size))]
fn formats(kind: Kind) -> Formats
    ensures { RowsOf kind result }
{
    match kind {
        Kind::Header(Scope::Single) => Formats::Only(SINGLE_HEADER_10),
        Kind::Header(Scope::Whole) => Formats::BySecond(0, &[HEADER_10, HEADER_11]),
        Kind::ScriptList => Formats::Only(SCRIPT_LIST),
        Kind::Script => Formats::Only(SCRIPT),
        Kind::LangSys => Formats::Only(LANG_SYS),
        Kind::FeatureList(Scope::Single) => Formats::Only(SINGLE_FEATURE_LIST),
        Kind::FeatureList(Scope::Whole) => Formats::Only(FEATURE_LIST),
        Kind::Feature => Formats::Only(FEATURE),
        Kind::FeatureWith(Params::Size) => Formats::Only(FEATURE_WITH_SIZE),
        Kind::FeatureWith(Params::StylisticSet) => Formats::Only(FEATURE_WITH_SET),
        Kind::FeatureWith(Params::CharacterVariant) => Formats::Only(FEATURE_WITH_VARIANT),
        Kind::FeatureParams(Params::Size) => Formats::Only(SIZE_PARAMS),
        Kind::FeatureParams(Params::StylisticSet) => Formats::Only(STYLISTIC_SET),
        Kind::FeatureParams(Params::CharacterVariant) => Formats::Only(CHARACTER_VARIANT),
        Kind::LookupList(Scope::Single) => Formats::Only(SINGLE_LOOKUP_LIST),
        Kind::LookupList(Scope::Whole) => Formats::Only(LOOKUP_LIST),
        Kind::Lookup(Scope::Single) => Formats::ByFirst(SINGLE_LOOKUPS),
        Kind::Lookup(Scope::Whole) => Formats::ByFirst(LOOKUPS),
        Kind::Extension(Scope::Single) => Formats::Only(SINGLE_EXTENSION),
        Kind::Extension(Scope::Whole) => Formats::BySecond(1, EXTENSIONS),
        Kind::SingleSubst => Formats::ByFirst(&[SINGLE_SUBST_1, SINGLE_SUBST_2]),
        Kind::MultipleSubst => Formats::Only(MULTIPLE_SUBST),
        Kind::Sequence => Formats::Only(GLYPH_LIST),
        Kind::AlternateSubst => Formats::Only(ALTERNATE_SUBST),
        Kind::AlternateSet => Formats::Only(GLYPH_LIST),
        Kind::LigatureSubst => Formats::Only(LIGATURE_SUBST),
        Kind::LigatureSet => Formats::Only(LIGATURE_SET),
        Kind::Ligature => Formats::Only(LIGATURE),
        Kind::SequenceContext => Formats::ByFirst(SEQUENCE_CONTEXTS),
        Kind::SequenceRuleSet => Formats::Only(SEQUENCE_RULE_SET),
        Kind::SequenceRule => Formats::Only(SEQUENCE_RULE),
        Kind::ChainedSequenceContext => Formats::ByFirst(CHAINED_SEQUENCE_CONTEXTS),
        Kind::ChainedSequenceRuleSet => Formats::Only(CHAINED_SEQUENCE_RULE_SET),
        Kind::ChainedSequenceRule => Formats::Only(CHAINED_SEQUENCE_RULE),
        Kind::ReverseChainSingleSubst => Formats::Only(REVERSE_CHAIN_SINGLE_SUBST),
        Kind::Coverage => Formats::ByFirst(&[COVERAGE_1, COVERAGE_2]),
        Kind::ClassDef => Formats::ByFirst(&[CLASS_DEF_1, CLASS_DEF_2]),
        Kind::FeatureVariations => Formats::Only(FEATURE_VARIATIONS),
        Kind::ConditionSet => Formats::Only(CONDITION_SET),
        Kind::Condition => Formats::Only(CONDITION),
        Kind::FeatureTableSubstitution => Formats::Only(FEATURE_TABLE_SUBSTITUTION),
    }
}

// The row of number n of these, which are numbered from `from` on; the last one for every other number.
fn by_number(n: usize, from: usize, rows: &'static [Row]) -> Row
    requires { RightRows rows.now }
    ensures { HasShape (by_number n from (shapes_of rows.now)) result.now }
{
    let last = rows.len() - 1;
    rows[n.checked_sub(from).unwrap_or(last).min(last)]
}

// The row of a table of this kind, by the first and second number in it: a version, a format or a lookup type, where there are several.
pub fn row_of(kind: Kind, first: usize, second: usize) -> Row
    ensures { RowOf kind first second result.now }
{
    match formats(kind) {
        Formats::Only(row) => row,
        Formats::ByFirst(rows) => by_number(first, 1, rows),
        Formats::BySecond(from, rows) => by_number(second, from, rows),
    }
}
