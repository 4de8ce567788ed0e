// The counts that every answer comes with.
#![tactic(auto)]

ghost use Rattle.std.specs.Prelude.{◌≡◌, true, ◌≤◌};
ghost use Rattle.model.specs.Judge.{most_links, most_bytes};
ghost use Rattle.layout.specs.Sound.{sound};
ghost use Rattle.steps.specs.Steps.{tally_in, tally_by};

use answer::Tally;
use layout::state::{State, read};

// What sound stores hold, by what was read of them; the byte store has length n.
pub fn tally_of(n: usize, s: State) -> Tally
    requires { (s.top ≤ s.low) × (s.low ≤ n) × (n ≤ most_bytes) × (s.link_top ≤ s.link_low) × (s.link_low ≤ s.links) × (s.links ≤ most_links) }
    ensures { result ≡ tally_by n s }
{
    Tally {
        bytes: s.top + (n - s.low),
        links: s.link_top + (s.links - s.link_low),
        objects: s.closed,
        depth: s.depth,
    }
}

// What sound stores hold.
pub fn tally_sound(store: &[u8], records: &[u32]) -> Tally
    requires { sound store.now records.now ≡ true }
    ensures { result ≡ tally_in store.now records.now }
{
    tally_of(store.len(), read(store, records))
}
