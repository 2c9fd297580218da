// A graph of at most NODES nodes with weights −1, 0 and +1, as sets of nodes, and one level of a search for a negative cycle in it.
#![tactic(auto)]

ghost use Rattle.std.specs.Prelude.{◌≡◌, ℕ, ◌+◌, ◌≤◌, ◌<◌, length, get_or};
ghost use Rattle.cluster.specs.Terms.{most_nodes};
ghost use Rattle.sets.specs.ModelBits.{bit};
ghost use Rattle.levels.specs.ModelGraph.{arc_cells, table_cells};
ghost use Rattle.levels.specs.ModelTurns.{Settled, AtMost, Nodes, Ready, Swept, Descended, stand_of, weight_from, leads_to, Taken};

use cluster::Cluster;

// The most nodes of a graph, as nodes are numbered.
pub const NODES: u32 = Cluster::NODES as u32;
// The cells of a graph's arcs: three sets for each node.
pub const ARCS: usize = 3 * Cluster::NODES;
// Where the sets of weight +1 begin; those of weight 0 begin at Cluster::NODES.
const HIGHER: usize = 2 * Cluster::NODES;

// Writes c into the cells of next, and u into those of row, of the members of s.
fn settle(s: u32, c: u32, u: u32, next: &mut [u32], row: &mut [u8])
    requires { (most_nodes ≤ length next.old) × (most_nodes ≤ length row.old) × (u < most_nodes) }
    ensures { Settled (bit s) (λ _. c) next.old next.new × Settled (bit s) (λ _. u) row.old row.new }
{
    let from = u as u8;
    for v in sets::iter(s) {
        let i = v as usize;
        next[i] = c;
        row[i] = from;
    }
}

// The set of the nodes below n that stand at c or below, where all stand at n or below.
fn stand(atmost: &[u32], n: u32, c: u32) -> u32
    requires { (n ≤ most_nodes) × (most_nodes ≤ length atmost.now) }
    ensures { result ≡ stand_of atmost.now n c }
{
    if c < n {
        atmost[c as usize]
    } else {
        sets::below(n)
    }
}

// Where the sets of the arcs begin by which node u offers one distance: u stands above it, or is a member of even and stands there, or is a member of
// up and stands below it.
fn weight(even: u32, up: u32, u: u32) -> usize
    ensures { result ≡ weight_from even up u }
{
    if sets::member(up, u) {
        HIGHER
    } else if sets::member(even, u) {
        Cluster::NODES
    } else {
        0
    }
}

// Offers distance c from the members of near, one after the other, to the nodes of free: each that is offered it falls there, by the first that offers it.
// The set of those that are still free is returned.
fn fall(
    arcs: &[u32],
    c: u32,
    near: u32,
    even: u32,
    up: u32,
    free: u32,
    next: &mut [u32],
    row: &mut [u8],
) -> u32
    requires { (arc_cells ≤ length arcs.now) × (most_nodes ≤ length next.old) × (most_nodes ≤ length row.old) }
    ensures { Taken near (leads_to arcs.now even up) most_nodes free result c next.old row.old next.new row.new }
{
    let mut still = free;
    for u in sets::iter(near) {
        if still == 0 {
            return still;
        }
        let taken = sets::meet(arcs[weight(even, up, u) + u as usize], still);
        settle(taken, c, u, next, row);
        still = sets::difference(still, taken);
    }
    still
}

// Takes the distances from the least that can be offered on level k, where the members of mask offer, so that a node falls once. The set of the nodes
// that fall is returned. The sets of the distances say where nodes stand, so that dist is not read.
fn sweep(
    arcs: &[u32],
    n: u32,
    k: u32,
    mask: u32,
    dist: &[u32],
    next: &mut [u32],
    row: &mut [u8],
    atmost: &mut [u32],
) -> u32
    requires { (arc_cells ≤ length arcs.now) × (most_nodes ≤ length next.old) × (most_nodes ≤ length row.old) × (most_nodes ≤ length atmost.old) × Ready n k mask dist.now next.old atmost.old }
    ensures swept { Swept arcs.now n mask dist.now next.new row.new result × Nodes n result }
    ensures stand { AtMost n next.new atmost.new }
{
    let all = sets::below(n);
    let least = n - k - 1;
    let mut here = stand(atmost, n, least);
    let mut even = 0;
    let mut up = 0;
    let mut fell = 0;
    for c in least..n {
        let above = stand(atmost, n, c + 1);
        let down = sets::difference(sets::meet(mask, above), here);
        let near = sets::union(down, sets::union(even, up));
        let free = sets::difference(all, sets::union(here, fell));
        let still = fall(arcs, c, near, even, up, free, next, row);
        fell = sets::union(fell, sets::difference(free, still));
        atmost[c as usize] = sets::union(here, fell);
        up = even;
        even = down;
        here = above;
    }
    fell
}

// One level down from level k: the distances of the next level in next, and in row k + 1 of the table the nodes that the fallen came from. The set
// of the nodes that fell is returned.
pub fn descend(
    arcs: &[u32],
    n: u32,
    k: u32,
    mask: u32,
    dist: &[u32],
    next: &mut [u32],
    table: &mut [u8],
    atmost: &mut [u32],
) -> u32
    requires { (k < n) × (n ≤ most_nodes) × (arc_cells ≤ length arcs.now) × (most_nodes ≤ length dist.now) × (most_nodes ≤ length next.old) × (table_cells ≤ length table.old) × (most_nodes ≤ length atmost.old) × AtMost n next.old atmost.old × Nodes n mask × ((v : ℕ) → v < n → (n ≤ get_or dist.now v 0 + k) × (get_or dist.now v 0 ≤ n) × (get_or next.old v 0 ≡ get_or dist.now v 0)) }
    ensures level { Descended arcs.now n k mask dist.now next.new table.old table.new result }
    ensures stand { AtMost n next.new atmost.new }
{
    let a = ((k + 1) * NODES) as usize;
    sweep(
        arcs,
        n,
        k,
        mask,
        dist,
        next,
        &mut table[a..a + Cluster::NODES],
        atmost,
    )
}
