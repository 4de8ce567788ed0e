// How many tables a read visits and how many bytes it puts, each as often as an offset leads there.
ghost use Rattle.gsub_show.specs.Visits.{GoesOn};

use gsub::{Kind, Mode, Scope};
use gsub_walk::walk::{Move, begun, step};

// Counts stay as they are from here on.
const MOST: u64 = 1 << 32;

#[derive(Clone, Copy)]
pub struct Visited {
    pub objects: u64,
    pub bytes: u64,
}

fn more(n: u64, by: u64) -> u64 {
    if MOST < n || MOST < by { n } else { n + by }
}

fn put(v: Visited, width: usize) -> Visited {
    Visited {
        bytes: more(v.bytes, width as u64),
        ..v
    }
}

fn closed(v: Visited) -> Visited {
    Visited {
        objects: more(v.objects, 1),
        ..v
    }
}

// With one move more; none where the walk has ended.
#[tactic(auto, unfolding(crate::specs::Visits::GoesOn))]
fn with_move(v: Visited, m: Move) -> Option<Visited>
    ensures { GoesOn m result }
{
    match m {
        Move::Begin => Some(v),
        Move::Put(_, width) | Move::New(_, width) | Move::Link(width) => Some(put(v, width)),
        Move::End => Some(closed(v)),
        Move::Stop(_) | Move::Done => None,
    }
}

pub fn visits(table: &[u8]) -> Visited {
    let mut walk = begun(Mode::Plain, Kind::Header(Scope::Whole), 0);
    let mut v = Visited {
        objects: 0,
        bytes: 0,
    };
    while let Some(next) = with_move(v, step(table, &mut walk)) {
        v = next;
    }
    v
}
