// A job: a session's calls as lines of text (docs/RULES.md, section 12). What it comes to, as definitions on the text alone.
#![tactic(auto)]

ghost use Rattle.std.specs.Prelude.{◌≡◌};
ghost use Rattle.job_rules.specs.Job.{breach, refusal};

// How long a job's text may be.
pub const MOST_TEXT: usize = 65536;

// What a job's session may be started with.
pub const MOST_BYTES: usize = 16384;

pub const MOST_OBJECTS: u32 = 256;

pub const MOST_LINKS: u32 = 1024;

// The number of a breach of the layout.
pub const BREACH: u64 = 14;

// A packed job: the table's length, and how many objects are in it.
#[derive(Clone, Copy)]
pub struct Packed {
    pub length: usize,
    pub placed: usize,
}

// A refused job: the refusal's number, and the line that it is told of.
#[derive(Clone, Copy)]
pub struct Refused {
    pub number: u64,
    pub line: usize,
}

// A line that breaks the layout, by its number.
#[derive(Clone, Copy)]
pub struct Breach(pub usize);

impl From<Breach> for Refused {
    ghost from_gives = { λ b r. r ≡ refusal breach b.0 };

    fn from(b: Breach) -> Refused {
        Refused {
            number: BREACH,
            line: b.0,
        }
    }
}
