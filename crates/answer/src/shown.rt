// What a session holds and the link that doesn't fit, as text: every value behind its name.
ghost use Rattle.std.specs.Prelude.{Some};
ghost use Rattle.answer.specs.Shown.{tally_text, overflow_text};

use crate::{Overflow, Tally};
use std::fmt;

impl fmt::Display for Tally {
    ghost output = { λ t. Some (tally_text t) };

    fn fmt<W: fmt::Write>(&self, f: &mut fmt::Formatter<W>) -> fmt::Result {
        write!(
            f,
            "bytes={} links={} objects={} depth={}",
            self.bytes, self.links, self.objects, self.depth
        )
    }
}

impl fmt::Display for Overflow {
    ghost output = { λ o. Some (overflow_text o) };

    fn fmt<W: fmt::Write>(&self, f: &mut fmt::Formatter<W>) -> fmt::Result {
        let parent = self.parent.0;
        write!(
            f,
            "parent={parent} field={} needed={}",
            self.field, self.needed
        )
    }
}
