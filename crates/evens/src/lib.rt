// Even exchanges: an exchange of a for b in a row is even where the levels of the two differ by just the weight that it loses, 1 where a was in the
// former row, less 1 where b was. A row is a set of nodes; cell NODES * h + a of `even` has the nodes that stand h - 1 above a.
#![tactic(auto)]

ghost use Rattle.std.specs.Prelude.{◌≡◌, ◌+◌, ◌≤◌, ◌<◌, length};
ghost use Rattle.cluster.specs.Terms.{most_nodes};
ghost use Rattle.levels.specs.ModelGraph.{arc_cells};
ghost use Rattle.swaps.specs.ModelSwaps.{tight_of};
ghost use Rattle.evens.specs.ModelEvens.{even_of, wanted_of, givers_of, Widened};

use cluster::Cluster;

// The most nodes, as nodes are numbered.
const NODES: u32 = Cluster::NODES as u32;

// The nodes that a could be exchanged for evenly in a row that was `former`, as far as levels and weights tell.
fn even_of(even: &[u32], former: u32, a: u32) -> u32
    requires { (a < most_nodes) × (arc_cells ≤ length even.now) }
    ensures { result ≡ even_of even.now former a }
{
    let i = (a + (former >> a) % 2 * NODES) as usize;
    sets::union(
        sets::meet(former, even[i]),
        sets::difference(even[i + Cluster::NODES], former),
    )
}

// Each node of the row leads to those to which it may give way evenly, too. The row may not lose the zones of the nodes `tight`.
pub fn widen(
    leads: &mut [u32],
    row: u32,
    tight: u32,
    former: u32,
    mates: &[u32],
    all: u32,
    z: u32,
    even: &[u32],
)
    requires { (most_nodes ≤ length leads.old) × (arc_cells ≤ length even.now) × (tight ≡ tight_of mates.now z row) }
    ensures { Widened mates.now all z even.now row former leads.old leads.new }
{
    for a in sets::iter(row) {
        let mate = swaps::cell(mates, a as usize);
        let to = sets::meet(
            swaps::targets_in(all, row, mate, tight),
            even_of(even, former, a),
        );
        arcs::join(leads, a as usize, to);
    }
}

// The nodes that a later node of the row could give way to evenly, as far as levels and weights tell: no others can come into the row.
pub fn wanted(row: u32, former: u32, even: &[u32]) -> u32
    requires { arc_cells ≤ length even.now }
    ensures { result ≡ wanted_of even.now row former }
{
    let mut found = 0;
    for a in sets::iter(row) {
        let earlier = sets::meet(even_of(even, former, a), sets::below(a));
        found = sets::union(found, earlier);
    }
    found
}

// The nodes of the row after b that may give way to b evenly.
pub fn givers(
    row: u32,
    tight: u32,
    former: u32,
    mates: &[u32],
    all: u32,
    z: u32,
    even: &[u32],
    b: u32,
) -> u32
    requires { (b < most_nodes) × (arc_cells ≤ length even.now) × (tight ≡ tight_of mates.now z row) }
    ensures { result ≡ givers_of mates.now all z even.now row former b }
{
    let later = sets::difference(row, sets::below(b + 1));
    let evenly = even_of(even, former, b);
    let mut found = 0;
    for a in sets::iter(sets::meet(later, evenly)) {
        let mate = swaps::cell(mates, a as usize);
        if sets::member(swaps::targets_in(all, row, mate, tight), b) {
            found = sets::with(found, a);
        }
    }
    found
}
