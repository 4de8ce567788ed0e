// The parameters that a feature's tag calls for.
ghost use Rattle.std.specs.Prelude.{◌≡◌, ◌&&◌, ◌≤◌, eqb, leb};
ghost use Rattle.gsub.specs.Features.{stylistic, variant, size1, size2, is_digit, two_digits, feature_by};
ghost use Rattle.gsub.specs.Ops.{feature_at};
ghost use Rattle.gsub_rows.specs.Fields.{farthest};

use gsub::{Kind, Params, word_at};

// A tag is four characters, two in each of its halves.
const TAG: usize = 4;

const HALF: usize = 2;

const CHARACTERS: usize = 256;

const STYLISTIC: usize = b's' as usize * CHARACTERS + b's' as usize;

const VARIANT: usize = b'c' as usize * CHARACTERS + b'v' as usize;

const SIZE_1: usize = b's' as usize * CHARACTERS + b'i' as usize;

const SIZE_2: usize = b'z' as usize * CHARACTERS + b'e' as usize;

const CHAR_0: usize = b'0' as usize;

const CHAR_9: usize = b'9' as usize;

const BASE: usize = 10;

// 'ss20' is the last stylistic set.
const MOST_SETS: usize = 20;

fn is_digit(c: usize) -> bool
    ensures { result ≡ is_digit c }
{
    (CHAR_0..=CHAR_9).contains(&c)
}

// The number that two digits write, 0 where they are none.
#[tactic(auto, unfolding(gsub::specs::Features::two_digits))]
fn two_digits(n: usize) -> usize
    ensures { result ≡ two_digits n }
{
    let tens = n / CHARACTERS;
    let units = n % CHARACTERS;
    if !is_digit(tens) || !is_digit(units) {
        return 0;
    }
    (tens - CHAR_0) * BASE + (units - CHAR_0)
}

fn is_set(first: usize, n: usize) -> bool
    ensures { result ≡ (eqb first stylistic && (leb 1 n && leb n 20)) }
{
    first == STYLISTIC && (1..=MOST_SETS).contains(&n)
}

fn is_variant(first: usize, n: usize) -> bool
    ensures { result ≡ (eqb first variant && leb 1 n) }
{
    first == VARIANT && 1 <= n
}

fn is_size(first: usize, second: usize) -> bool
    ensures { result ≡ (eqb first size1 && eqb second size2) }
{
    first == SIZE_1 && second == SIZE_2
}

// The Feature that the two halves of a tag call for.
#[tactic(auto, unfolding(gsub::specs::Features::feature_by))]
fn feature_by(first: usize, second: usize) -> Kind
    ensures { result ≡ feature_by first second }
{
    let n = two_digits(second);
    if is_set(first, n) {
        return Kind::FeatureWith(Params::StylisticSet);
    }
    if is_variant(first, n) {
        return Kind::FeatureWith(Params::CharacterVariant);
    }
    if is_size(first, second) {
        return Kind::FeatureWith(Params::Size);
    }
    Kind::Feature
}

// By the tag in the four bytes before a place.
pub fn feature_at(table: &[u8], at: usize) -> Kind
    requires { at ≤ farthest }
    ensures { result ≡ feature_at table.now at }
{
    feature_by(
        word_at(table, at.saturating_sub(TAG)),
        word_at(table, at.saturating_sub(HALF)),
    )
}
