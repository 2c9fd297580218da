// What parts of levels::ARCS cells hold together: sets of nodes, three for each node. The first LEAVES parts are leaves; branch i is part LEAVES + i, and is made
// of PARTS leaves.
#![tactic(auto)]

ghost use Rattle.std.specs.Prelude.{◌≡◌, ℕ, ◌+◌, ◌*◌, ◌/◌, ◌≤◌, ◌<◌, length, get_or};
ghost use Rattle.cells.specs.ModelCells.{put};
ghost use Rattle.cluster.specs.Terms.{most_nodes};
ghost use Rattle.levels.specs.ModelGraph.{arc_cells};
ghost use Rattle.sets.specs.ModelBits.{union_of};
ghost use Rattle.unions.specs.ModelUnions.{most_leaves, parts, kept_cells, union_at, Merged, Gathered};

use cluster::Cluster;

// The leaves of a branch, and the branches of all.
pub const PARTS: usize = 8;
// The leaves of the rows of a layout.
pub const LEAVES: usize = Cluster::PARTITIONS / swaps::LEAF;

// Adds the sets in NODES cells of `kept`, from the cell `at` on, to those in `held`.
fn unite(held: &mut [u32], kept: &[u32], at: usize)
    requires { (length held.old ≡ most_nodes) × (at + most_nodes ≤ length kept.now) }
    ensures { held.new
        ≡ put 0 (λ t. union_of (get_or held.old t 0) (get_or kept.now (at + t) 0)) most_nodes held.old }
{
    for t in 0..Cluster::NODES {
        arcs::join(held, t, kept[at + t]);
    }
}

// What PARTS parts from the part k on hold together in NODES cells, from their cell j on. The nodes lie side by side, so that the compiler takes several
// by one instruction.
fn united(kept: &[u32], k: usize, j: usize) -> [u32; Cluster::NODES]
    requires { (k ≤ most_leaves) × (j + most_nodes ≤ arc_cells) × (length kept.now ≡ kept_cells) }
    ensures { (length result ≡ most_nodes) × ((t : ℕ) → t < most_nodes → get_or result t 0 ≡ union_at kept.now k (j + t)) }
{
    let mut held = [0u32; Cluster::NODES];
    for b in 0..PARTS {
        unite(&mut held, kept, (k + b) * levels::ARCS + j);
    }
    held
}

// Writes cells from the cell `at` on. A loop: at `copy_from_slice` the compiler asks each time whether the two slices overlap.
fn store(kept: &mut [u32], at: usize, cells: &[u32])
    requires { at + length cells.now ≤ length kept.old }
    ensures { kept.new ≡ put at (λ t. get_or cells.now t 0) (length cells.now) kept.old }
{
    for t in 0..cells.len() {
        kept[at + t] = cells[t];
    }
}

// Branch i gets what its leaves hold together, weight by weight.
pub fn merge(kept: &mut [u32], i: usize)
    requires { (i < parts) × (length kept.old ≡ kept_cells) }
    ensures { Merged (parts * i) (most_leaves + i) kept.old kept.new }
{
    let k = PARTS * i;
    let at = (LEAVES + i) * levels::ARCS;
    let low = united(kept, k, 0);
    store(kept, at, &low);
    let mid = united(kept, k, Cluster::NODES);
    store(kept, at + Cluster::NODES, &mid);
    let high = united(kept, k, 2 * Cluster::NODES);
    store(kept, at + 2 * Cluster::NODES, &high);
}

// Writes what all branches hold together, weight by weight.
pub fn gather(arcs: &mut [u32], kept: &[u32])
    requires { (arc_cells ≤ length arcs.old) × (length kept.now ≡ kept_cells) }
    ensures { Gathered kept.now arcs.old arcs.new }
{
    let low = united(kept, LEAVES, 0);
    store(arcs, 0, &low);
    let mid = united(kept, LEAVES, Cluster::NODES);
    store(arcs, Cluster::NODES, &mid);
    let high = united(kept, LEAVES, 2 * Cluster::NODES);
    store(arcs, 2 * Cluster::NODES, &high);
}
