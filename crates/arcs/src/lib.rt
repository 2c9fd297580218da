// What rows allow, as three sets for each node: cell a of `arcs` has the nodes that one of a's copies can go to at weight -1, cell NODES + a those at
// weight 0, and cell 2 * NODES + a those at weight 1. The exchange of a for b in a row has weight 1 where a was in the former row, less 1 where b was.
#![tactic(auto)]

ghost use Rattle.std.specs.Prelude.{◌≡◌, ◌++◌, ℕ, ◌+◌, ◌/◌, ◌%◌, ◌≤◌, ◌<◌, min, length, drop};
ghost use Rattle.sums.specs.TermsSums.{tab};
ghost use Rattle.cluster.specs.Terms.{most_nodes, buffer_rows};
ghost use Rattle.levels.specs.ModelGraph.{arc_cells};
ghost use Rattle.sets.specs.ModelBits.{bit, difference_of};
ghost use Rattle.swaps.specs.ModelSwaps.{tight_of, Tight};
ghost use Rattle.arcs.specs.ModelMoves.{joined, noted, leads, weighs, moves, moves_to};
ghost use Rattle.arcs.specs.ModelGrowth.{Grown, Written};

use cluster::Cluster;
use swaps::instance::Instance;

// The most nodes, as nodes are numbered.
const NODES: u32 = Cluster::NODES as u32;

// Empties the sets of all nodes.
fn clear(arcs: &mut [u32])
    requires { arc_cells ≤ length arcs.old }
    ensures { arcs.new ≡ tab (λ k. 0) arc_cells ++ drop arc_cells arcs.old }
{
    arcs[..levels::ARCS].fill(0);
}

// Adds the members of s to the set in cell i.
pub fn join(arcs: &mut [u32], i: usize, s: u32)
    requires { i < length arcs.old }
    ensures { arcs.new ≡ joined arcs.old i s }
{
    arcs[i] = sets::union(arcs[i], s);
}

// Adds the nodes `to`, to which a can go in one row, to a's sets, by the weight that the former row gives them.
fn note(arcs: &mut [u32], a: u32, former: u32, to: u32)
    requires { (arc_cells ≤ length arcs.old) × (a < most_nodes) }
    ensures { arcs.new ≡ noted arcs.old a former to }
{
    let i = (a + (former >> a) % 2 * NODES) as usize;
    join(arcs, i, sets::meet(to, former));
    join(arcs, i + Cluster::NODES, sets::difference(to, former));
}

// Adds the nodes `low` to the sets of the nodes of `part` at weight h - 1 and the nodes `high` to those at weight h.
fn add_part(arcs: &mut [u32], part: u32, h: usize, low: u32, high: u32)
    requires { (arc_cells ≤ length arcs.old) × (h ≤ 1) }
    ensures { Grown (λ j b. min (bit part (j % most_nodes)) (leads h low high j b)) arcs.old arcs.new }
{
    for a in sets::iter(part) {
        let i = a as usize + h * Cluster::NODES;
        join(arcs, i, low);
        join(arcs, i + Cluster::NODES, high);
    }
}

// Adds what a row with a zone to spare allows: each of its nodes may give way to any node outside, and the weights hang on nothing of it but whether the
// former row has it, so that the row is added in two parts.
fn add_spare(arcs: &mut [u32], row: u32, former: u32, all: u32)
    requires { arc_cells ≤ length arcs.old }
    ensures { Grown (λ j b. min (bit row (j % most_nodes)) (min (bit (difference_of all row) b) (weighs former (j / most_nodes) (j % most_nodes) b))) arcs.old arcs.new }
{
    let free = sets::difference(all, row);
    let low = sets::meet(free, former);
    let high = sets::difference(free, former);
    let new = sets::difference(row, former);
    add_part(arcs, new, 0, low, high);
    let old = sets::meet(row, former);
    add_part(arcs, old, 1, low, high);
}

// Adds what one row allows, which may not lose the zones of the nodes `tight`.
fn add_row(arcs: &mut [u32], row: u32, tight: u32, former: u32, mates: &[u32], all: u32, z: u32)
    requires { (arc_cells ≤ length arcs.old) × (tight ≡ tight_of mates.now z row) }
    ensures { Grown (moves mates.now all z row former) arcs.old arcs.new }
{
    if tight == 0 {
        add_spare(arcs, row, former, all);
        return;
    }
    for a in sets::iter(row) {
        let mate = swaps::cell(mates, a as usize);
        note(arcs, a, former, swaps::targets_in(all, row, mate, tight));
    }
}

// Adds what n rows from the row `first` on allow, which are some of the first `partitions`.
fn add_rows(
    arcs: &mut [u32],
    rows: &[u32],
    tight: &[u32],
    given: &Instance,
    first: usize,
    n: usize,
    all: u32,
)
    requires { let g = given.now in (arc_cells ≤ length arcs.old) × (g.partitions ≤ buffer_rows) × ((i : ℕ) → i < n → first + i < g.partitions)
        × Tight g.mates.now g.z rows.now g.partitions tight.now }
    ensures { let g = given.now in Grown (moves_to (drop first rows.now) (drop first g.former.now) n g.mates.now all g.z) arcs.old arcs.new }
{
    for i in 0..n {
        let p = first + i;
        let row = swaps::cell(rows, p);
        let old = swaps::cell(given.former, p);
        add_row(arcs, row, tight[p], old, given.mates, all, given.z);
    }
}

// Writes what n rows from the row `first` on allow, which are some of the first `partitions`.
pub fn write_rows(
    arcs: &mut [u32],
    rows: &[u32],
    tight: &[u32],
    given: &Instance,
    first: usize,
    n: usize,
    all: u32,
)
    requires { let g = given.now in (arc_cells ≤ length arcs.old) × (g.partitions ≤ buffer_rows) × ((i : ℕ) → i < n → first + i < g.partitions)
        × Tight g.mates.now g.z rows.now g.partitions tight.now }
    ensures { let g = given.now in Written (moves_to (drop first rows.now) (drop first g.former.now) n g.mates.now all g.z) arcs.old arcs.new }
{
    clear(arcs);
    add_rows(arcs, rows, tight, given, first, n, all);
}
