// One field read and judged.
ghost use Rattle.std.specs.Prelude.{◌≡◌, ◌+◌, ◌≤◌, length, leb};
ghost use Rattle.gsub.specs.Ops.{by_rule as actOf, feature_at, act};
ghost use Rattle.gsub_rows.specs.Fields.{farthest, Narrow};

use crate::features::feature_at;
use gsub::{Act, Field, Rule};

// By the number in it; the tag before `at` plays a part for a Feature alone.
#[tactic(auto, unfolding(gsub::specs::Ops::by_rule))]
fn by_rule(table: &[u8], at: usize, rule: Rule, v: usize) -> Act
    requires { at ≤ farthest }
    ensures { result ≡ actOf rule (feature_at table.now at) v }
{
    match rule {
        Rule::Any => Act::Keep,
        Rule::Only(x) => if v == x { Act::Keep } else { Act::Refuse },
        Rule::To(k) => if v == 0 { Act::Refuse } else { Act::Follow(k) },
        Rule::ToOrNull(k) => if v == 0 { Act::Keep } else { Act::Follow(k) },
        Rule::ToFeature => if v == 0 {
            Act::Refuse
        } else {
            Act::Follow(feature_at(table, at))
        },
    }
}

// A field of this width lies in the slice.
pub fn lies_in(table: &[u8], at: usize, width: usize) -> bool
    ensures { result ≡ leb (at + width) (length table.now) }
{
    at <= table.len() && width <= table.len() - at
}

// The field at `at`: refused where it passes the slice's end, else by its number.
#[tactic(auto, unfolding(gsub::specs::Ops::act))]
pub fn judge(table: &[u8], at: usize, f: Field) -> Act
    requires { Narrow f × (at ≤ farthest) }
    ensures { result ≡ act table.now at f }
{
    if !lies_in(table, at, f.width) {
        return Act::Refuse;
    }
    let v = big_endian::read(table, at, f.width) as usize;
    by_rule(table, at, f.rule, v)
}
