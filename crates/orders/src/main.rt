// Prints, for each named graph, the three orders, the places of their nodes and the first link that does not fit.
#![tactic(auto)]

ghost use Rattle.std.specs.Prelude.{◌≡◌, true, ◌++◌, ◌+◌, ◌-◌, ◌*◌, ◌/◌, ◌≤◌, ◌<◌, length, get_or};
ghost use Rattle.work.specs.Packed.{most_half};
ghost use Rattle.order_fit.specs.Fit.{Placing};
ghost use Rattle.order.specs.Try.{Trying, Ordered};
ghost use Rattle.order.specs.declared.By.TheVariants as By;
ghost use Rattle.orders.specs.Given.{packed, shown, Loaded, Stood};

use answer::Overflow;
use model_orders::LINK_WORDS;
use order::{By, try_order};
use order_fit::node_at;
use order_spaces::number_spaces;
use order_survey::{find_distances, survey};
use report::print_next;
use work::{Areas, MOST_HALF};

// Enough words for the largest of the graphs.
const SPACE: usize = 96;

// The words of a node: its size, its first link, its count of links.
const NODE_WORDS: usize = 3;

// A named graph. Nodes: their sizes, their numbers of first links, their counts of links. A link: field place, width, inner start, child. The last node is the root.
struct Graph<'a> {
    name: &'a str,
    nodes: &'a [u64],
    links: &'a [u32],
}

// The r placed nodes.
fn print_ids(to: &impl Print, work: &[u64], a: Areas, n: usize, r: usize)
    requires { Placing a n r work.now }
{
    for t in 0..r {
        print_next(to, t, node_at(work, a, n, r, t));
    }
}

// The place of each.
fn print_places(to: &impl Print, work: &[u64], a: Areas, n: usize, r: usize)
    requires { Placing a n r work.now }
{
    for t in 0..r {
        print_next(to, t, work[a.places + node_at(work, a, n, r, t)]);
    }
}

fn print_order(to: &impl Print, name: &str, work: &[u64], a: Areas, n: usize, r: usize)
    requires { Placing a n r work.now }
{
    let _ = print!(to; "{name}=");
    print_ids(to, work, a, n, r);
    let _ = print!(to; "\nplaces=");
    print_places(to, work, a, n, r);
}

fn print_look(to: &impl Print, look: Result<(), Overflow>) {
    let _ = match look {
        Ok(()) => println!(to; "\noverflow=none"),
        Err(o) => println!(to; "\noverflow={} {} {}", o.parent.0, o.field, o.needed),
    };
}

// The answer is how many nodes are placed.
fn show_order(to: &impl Print, name: &str, work: &mut [u64], a: Areas, by: By) -> usize
    requires { Trying a a.nodes (a.nodes - 1) by work.old }
    ensures { Ordered a a.nodes (a.nodes - 1) by result work.old work.new }
{
    let n = a.nodes;
    let tried = try_order(work, a, n, n - 1, by);
    print_order(to, name, work, a, n, tried.placed);
    print_look(to, tried.look);
    tried.placed
}

// The distances are found along the kahn order, and the spaces go by the distance order.
fn show_orders(to: &impl Print, work: &mut [u64], a: Areas)
    requires { Stood a work.old }
{
    let n = a.nodes;
    let root = n - 1;
    survey(work, a, n, root);
    let placed = show_order(to, "kahn", work, a, By::Readiness);
    find_distances(work, a, n, root, placed);
    let placed = show_order(to, "distance", work, a, By::Distance);
    number_spaces(work, a, n, placed, root);
    show_order(to, "spaces", work, a, By::Space);
}

// The links, two words in one, from place `at` of the memory on.
fn load_links(words: &[u32], work: &mut [u64], at: usize)
    requires { at + length (packed words.now) ≤ length work.old }
    ensures { Loaded (packed words.now) at work.old work.new }
{
    for i in 0..words.len() / 2 {
        work[at + i] = u64::from(words[i * 2]) + u64::from(words[i * 2 + 1]) * MOST_HALF;
    }
}

fn show(to: &impl Print, g: &Graph)
    requires { shown g.now ≡ true }
{
    let mut space: [u64; SPACE] = [0; SPACE];
    let work: &mut [u64] = &mut space;
    work[..g.nodes.len()].copy_from_slice(g.nodes);
    load_links(g.links, work, g.nodes.len());
    let _ = println!(to; "graph {}", g.name);
    show_orders(
        to,
        work,
        Areas::of(g.nodes.len() / NODE_WORDS, g.links.len() / LINK_WORDS, 0),
    );
}

const GRAPHS: [Graph; 18] = [
    Graph {
        name: "5",
        nodes: &[1, 2, 4, 0, 0, 1, 0, 1, 2],
        links: &[0, 2, 0, 0, 0, 2, 0, 0, 2, 2, 0, 1],
    },
    Graph {
        name: "11",
        nodes: &[65531, 10, 4, 0, 0, 0, 0, 0, 2],
        links: &[0, 2, 0, 0, 2, 2, 0, 1],
    },
    Graph {
        name: "12",
        nodes: &[65532, 10, 4, 0, 0, 0, 0, 0, 2],
        links: &[0, 2, 0, 0, 2, 2, 0, 1],
    },
    Graph {
        name: "13",
        nodes: &[65532, 65532, 4, 0, 0, 0, 0, 0, 2],
        links: &[0, 2, 0, 0, 2, 2, 0, 1],
    },
    Graph {
        name: "14",
        nodes: &[
            1, 1, 40000, 40000, 2, 2, 8, 0, 0, 0, 1, 2, 3, 4, 0, 0, 1, 1, 1, 1, 2,
        ],
        links: &[
            0, 2, 0, 0, 0, 2, 0, 1, 0, 2, 0, 2, 0, 2, 0, 3, 0, 4, 0, 4, 4, 4, 0, 5,
        ],
    },
    Graph {
        name: "links x y x",
        nodes: &[1, 1, 6, 0, 0, 0, 0, 0, 3],
        links: &[0, 2, 0, 0, 2, 2, 0, 1, 4, 2, 0, 0],
    },
    Graph {
        name: "unreached parent",
        nodes: &[1, 3, 2, 0, 0, 1, 0, 1, 1],
        links: &[1, 2, 0, 0, 0, 2, 0, 0],
    },
    Graph {
        name: "equal distances ids along",
        nodes: &[65531, 65530, 5, 6, 4, 0, 0, 0, 1, 2, 0, 0, 1, 1, 2],
        links: &[3, 2, 0, 0, 4, 2, 0, 1, 0, 2, 0, 2, 2, 2, 0, 3],
    },
    Graph {
        name: "equal distances ids other way round",
        nodes: &[65530, 65531, 5, 6, 4, 0, 0, 0, 1, 2, 0, 0, 1, 1, 2],
        links: &[3, 2, 0, 1, 4, 2, 0, 0, 0, 2, 0, 2, 2, 2, 0, 3],
    },
    Graph {
        name: "lighter link second",
        nodes: &[1, 3, 65530, 10, 10, 0, 0, 0, 0, 1, 0, 0, 0, 1, 4],
        links: &[6, 4, 0, 0, 0, 2, 0, 2, 2, 2, 0, 3, 4, 4, 0, 1, 8, 2, 0, 1],
    },
    Graph {
        name: "lighter link first",
        nodes: &[1, 3, 65530, 10, 10, 0, 0, 0, 0, 1, 0, 0, 0, 1, 4],
        links: &[6, 4, 0, 0, 0, 2, 0, 2, 2, 2, 0, 3, 4, 2, 0, 1, 6, 4, 0, 1],
    },
    Graph {
        name: "different ready times",
        nodes: &[65540, 65541, 6, 5, 4, 0, 0, 0, 1, 2, 0, 0, 1, 1, 2],
        links: &[4, 2, 0, 0, 3, 2, 0, 1, 0, 2, 0, 2, 2, 2, 0, 3],
    },
    Graph {
        name: "width 3 weighs more than width 2",
        nodes: &[1, 10, 5, 0, 0, 0, 0, 0, 2],
        links: &[0, 3, 0, 0, 3, 2, 0, 1],
    },
    Graph {
        name: "width 3 weighs less than width 4",
        nodes: &[10, 1, 7, 0, 0, 0, 0, 0, 2],
        links: &[0, 4, 0, 1, 4, 3, 0, 0],
    },
    Graph {
        name: "least of two paths",
        nodes: &[7, 9, 5, 5, 4, 0, 0, 0, 1, 3, 0, 0, 1, 2, 2],
        links: &[1, 4, 0, 0, 1, 2, 0, 1, 3, 2, 0, 0, 0, 2, 0, 2, 2, 2, 0, 3],
    },
    Graph {
        name: "spaces by distance",
        nodes: &[
            1, 40000, 1, 30000, 1, 50000, 12, 0, 0, 1, 1, 2, 2, 3, 0, 1, 0, 1, 0, 1, 3,
        ],
        links: &[
            0, 2, 0, 0, 0, 2, 0, 2, 0, 2, 0, 4, 0, 4, 0, 5, 4, 4, 0, 1, 8, 4, 0, 3,
        ],
    },
    Graph {
        name: "child in space 0",
        nodes: &[10, 40000, 40000, 10, 0, 0, 1, 2, 0, 1, 1, 3],
        links: &[0, 2, 0, 0, 0, 2, 0, 0, 0, 2, 0, 0, 2, 4, 0, 1, 6, 4, 0, 2],
    },
    Graph {
        name: "shared child",
        nodes: &[1, 3, 2, 8, 0, 0, 1, 2, 0, 1, 1, 2],
        links: &[0, 2, 0, 0, 0, 2, 0, 0, 0, 4, 0, 2, 4, 4, 0, 1],
    },
];

fn main(rt: HostRuntime) {
    let to = &rt.stdout();
    for g in &GRAPHS {
        show(to, g);
    }
}
