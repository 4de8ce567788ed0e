// The work memory of a pack: where each of its arrays begins, how many words it needs, and those words cleared.
#![tactic(auto)]

ghost use Rattle.std.specs.Prelude.{◌≡◌, ◌≤◌, ◌<◌, ◌^◌, min, length, replicate};
ghost use Rattle.lists.specs.Lists.{over};
ghost use Rattle.model.specs.Judge.{most_copies};
ghost use Rattle.work.specs.Areas.{areas_of, areas_for, work_need};

// The words of a link: its field's place and width in one, its inner start and its child in the other.
pub const PACKED_WORDS: usize = 2;

// Each half of a word is less than this.
pub const MOST_HALF: u64 = 4294967296;

// The copies that a pack may be allowed.
pub const MOST_COPIES: u32 = 1024;

// Where each array begins, and how many nodes and copies there is room for. The sizes begin at 0.
#[derive(Clone, Copy)]
pub struct Areas {
    pub nodes: usize,
    pub copies: usize,
    pub firsts: usize,
    pub counts: usize,
    pub links: usize,
    pub keys: usize,
    pub spots: usize,
    pub waiting: usize,
    pub arrived: usize,
    pub places: usize,
    pub bosses: usize,
    pub heap: usize,
    pub order: usize,
    pub line: usize,
    pub incoming: usize,
    pub distances: usize,
    pub spaces: usize,
    pub origins: usize,
    pub end: usize,
}

impl Areas {
    // Room for so many nodes and links, copies among them.
    pub fn of(nodes: usize, links: usize, copies: usize) -> Self
        requires { (nodes < 2 ^ 33) × (links < 2 ^ 43) × (copies < 2 ^ 32) }
        ensures { result ≡ areas_of nodes links copies }
    {
        let g = nodes * 3 + links * PACKED_WORDS;
        Areas {
            nodes,
            copies,
            firsts: nodes,
            counts: nodes * 2,
            links: nodes * 3,
            keys: g,
            spots: g,
            waiting: g + nodes,
            arrived: g + nodes * 2,
            places: g + nodes * 2,
            bosses: g + nodes * 2,
            heap: g + nodes * 3,
            order: g + nodes * 4,
            line: g + nodes * 4,
            incoming: g + nodes * 5,
            distances: g + nodes * 6,
            spaces: g + nodes * 7,
            origins: g + nodes * 8,
            end: g + nodes * 8 + copies,
        }
    }

    // Room for a graph of these limits and so many copies. A copy takes one node, and as many links as there may be.
    pub fn with_copies(objects: usize, links: usize, copies: usize) -> Self
        requires { (objects < 2 ^ 32) × (links < 2 ^ 32) × (copies ≤ most_copies) }
        ensures { result ≡ areas_for objects links copies }
    {
        Areas::of(objects + copies, links * (copies + 1), copies)
    }
}

// So many copies, or the most that may be allowed.
fn at_most(copies: u32) -> u32
    ensures { (result ≤ most_copies) × (result ≡ min copies most_copies) }
{
    if copies < MOST_COPIES {
        copies
    } else {
        MOST_COPIES
    }
}

// How many words a pack needs for these limits and so many copies; for more than may be allowed, as many as for the most.
pub fn need(objects: u32, links: u32, copies: u32) -> usize
    ensures { result ≡ work_need objects links (min copies most_copies) }
{
    let allowed = at_most(copies);
    let a = Areas::with_copies(objects as usize, links as usize, allowed as usize);
    a.end
}

// Zeroes the words of all areas. The surplus stands.
pub fn clear(work: &mut [u64], a: Areas)
    requires { a.end ≤ length work.old }
    ensures { work.new ≡ over 0 (replicate a.end 0) work.old }
{
    memory::clear(work, 0, a.end, 0);
}
