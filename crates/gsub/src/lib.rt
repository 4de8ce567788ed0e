// A GSUB table read into a session, one object for each of its tables.
#![tactic(auto)]

mod numbers;

pub use numbers::word_at;

// Which tables are read: version 1.0 with single substitution alone; or versions 1.0 and 1.1 with every lookup type.
#[derive(Clone, Copy)]
pub enum Scope {
    Single,
    Whole,
}

// The parameters that a feature may have.
#[derive(Clone, Copy)]
pub enum Params {
    Size,
    StylisticSet,
    CharacterVariant,
}

// The tables of a GSUB table; which format stands there is read from the table itself. A Header and what hangs on lookup types have a scope; a rule set's
// rules are of glyphs or of classes, which are laid out alike.
#[derive(Clone, Copy)]
pub enum Kind {
    Header(Scope),
    ScriptList,
    Script,
    LangSys,
    FeatureList(Scope),
    Feature,
    FeatureWith(Params),
    FeatureParams(Params),
    LookupList(Scope),
    Lookup(Scope),
    Extension(Scope),
    SingleSubst,
    MultipleSubst,
    Sequence,
    AlternateSubst,
    AlternateSet,
    LigatureSubst,
    LigatureSet,
    Ligature,
    SequenceContext,
    SequenceRuleSet,
    SequenceRule,
    ChainedSequenceContext,
    ChainedSequenceRuleSet,
    ChainedSequenceRule,
    ReverseChainSingleSubst,
    Coverage,
    ClassDef,
    FeatureVariations,
    ConditionSet,
    Condition,
    FeatureTableSubstitution,
}

// What a field may hold: any number; this number alone; an offset to a table; an offset, or zero where there is no table; an offset to a Feature, with the
// parameters that the tag just before it calls for.
#[derive(Clone, Copy)]
pub enum Rule {
    Any,
    Only(usize),
    To(Kind),
    ToOrNull(Kind),
    ToFeature,
}

#[derive(Clone, Copy)]
pub struct Field {
    pub width: usize,
    pub rule: Rule,
}

// What is done with a field: it is put as it stands; it is followed to a table of this kind; it is refused.
#[derive(Clone, Copy)]
pub enum Act {
    Keep,
    Follow(Kind),
    Refuse,
}

// How a table is read: as it stands; as the Header or the LookupList of one whose last lookups, so many, are promoted; as a Lookup that is; as the new
// Extension, for this lookup type, in front of the subtable at its place.
#[derive(Clone, Copy)]
pub enum Mode {
    Plain,
    Last(usize),
    Promoted,
    New(usize),
}

// The bytes of an Extension.
pub const EXTENSION_SIZE: usize = 8;

// What is written and stands in no table: a new Extension for each lookup type from 0 to 8, with format 1, the type and any offset. A promoted Lookup's type
// is that of the Extension for type 7.
pub const NEW: [u8; 72] = [
    0, 1, 0, 0, 0, 0, 0, 1, 0, 1, 0, 1, 0, 0, 0, 1, 0, 1, 0, 2, 0, 0, 0, 1, 0, 1, 0, 3, 0, 0, 0, 1,
    0, 1, 0, 4, 0, 0, 0, 1, 0, 1, 0, 5, 0, 0, 0, 1, 0, 1, 0, 6, 0, 0, 0, 1, 0, 1, 0, 7, 0, 0, 0, 1,
    0, 1, 0, 8, 0, 0, 0, 1,
];
