// The ranges of a start's limits, and how many objects may be open (docs/RULES.md, 3.1 and 3.2).
pub const MOST_OBJECTS: usize = 16384;

pub const MOST_LINKS: usize = 65536;

pub const MOST_BYTES: usize = 16777216;

pub const MOST_OPEN: usize = 64;
