// The exchange graph of a layout, as three sets for each node (`arcs`); a node with room leads to all nodes at weight 0. What the rows allow is kept in
// parts (`unions`), so that little is made anew after a turn: part l has the sets of the rows of leaf l, and part unions::LEAVES + i those of branch i. Only
// leaves with a changed row, and their branches, are looked at again.
#![tactic(auto)]

ghost use Rattle.std.specs.Prelude.{◌≡◌, ℕ, ◌+◌, ◌*◌, ◌/◌, ◌%◌, ◌^◌, ◌≤◌, ◌<◌, min, length, get_or, ltb};
ghost use Rattle.sums.specs.TermsSums.{one_if};
ghost use Rattle.sums.specs.ModelSums.{is};
ghost use Rattle.cluster.specs.Terms.{most_nodes, buffer_rows};
ghost use Rattle.levels.specs.ModelGraph.{arc_cells};
ghost use Rattle.sets.specs.ModelBits.{bit};
ghost use Rattle.swaps.specs.ModelSwaps.{Tight};
ghost use Rattle.arcs.specs.ModelGrowth.{Grown};
ghost use Rattle.graph.specs.ModelArcs.{copies_to, arcs_of};
ghost use Rattle.unions.specs.ModelUnions.{most_leaves, parts, kept_cells};
ghost use Rattle.graph.specs.ModelKept.{Leaf, Branch, Kept, Filled, Renewed};

use cluster::Cluster;
use swaps::instance::Instance;

// The sets of leaves of a branch.
const BRANCH: u64 = 1 << unions::PARTS;
// The cells of all leaves and branches.
pub const KEPT: usize = (unions::LEAVES + unions::PARTS) * levels::ARCS;

// Writes what the rows of a leaf allow into its cells.
fn fill(rows: &[u32], tight: &[u32], given: &Instance, all: u32, leaf: usize, kept: &mut [u32])
    requires { let g = given.now in (g.partitions ≤ buffer_rows) × (leaf < most_leaves) × (length kept.old ≡ kept_cells) × Tight g.mates.now g.z rows.now g.partitions tight.now }
    ensures { let g = given.now in Filled rows.now g.former.now g.partitions g.mates.now all g.z leaf kept.old kept.new }
{
    let first = leaf * swaps::LEAF;
    let n = given.partitions.saturating_sub(first).min(swaps::LEAF);
    let at = leaf * levels::ARCS;
    arcs::write_rows(
        &mut kept[at..at + levels::ARCS],
        rows,
        tight,
        given,
        first,
        n,
        all,
    );
}

// Renews the stale leaves of branch i, and then the branch, where there are any.
fn renew(
    rows: &[u32],
    tight: &[u32],
    given: &Instance,
    all: u32,
    i: usize,
    stale: u32,
    kept: &mut [u32],
)
    requires { let g = given.now in (g.partitions ≤ buffer_rows) × (i < parts) × (stale < 2 ^ parts) × (length kept.old ≡ kept_cells) × Tight g.mates.now g.z rows.now g.partitions tight.now
        × ((b : ℕ) → b < parts → bit stale b ≡ 0 → Leaf rows.now g.former.now g.partitions g.mates.now all g.z (parts * i + b) kept.old)
        × (stale ≡ 0 → Branch rows.now g.former.now g.partitions g.mates.now all g.z i kept.old) }
    ensures { let g = given.now in Renewed rows.now g.former.now g.partitions g.mates.now all g.z i kept.old kept.new }
{
    if stale == 0 {
        return;
    }
    for b in sets::iter(stale) {
        let leaf = unions::PARTS * i + b as usize;
        fill(rows, tight, given, all, leaf, kept);
    }
    unions::merge(kept, i);
}

// A node with room leads to all nodes at weight 0.
fn add_room(arcs: &mut [u32], room: u32, all: u32)
    requires { arc_cells ≤ length arcs.old }
    ensures { Grown (λ j b. min (bit room (j % most_nodes)) (min (is 1 (j / most_nodes)) (bit all b))) arcs.old arcs.new }
{
    for a in sets::iter(room) {
        arcs::join(arcs, a as usize + Cluster::NODES, all);
    }
}

// The exchange graph of the first `partitions` rows, where `room` are the nodes with fewer copies than their caps. The leaves that are stale, and their
// branches, are renewed. Nothing is written to `arcs` where it has fewer than levels::ARCS cells.
pub fn build(
    rows: &[u32],
    tight: &[u32],
    given: &Instance,
    room: u32,
    all: u32,
    stale: u64,
    kept: &mut [u32],
    arcs: &mut [u32],
)
    requires { let g = given.now in (g.partitions ≤ buffer_rows) × Tight g.mates.now g.z rows.now g.partitions tight.now
        × ((u : ℕ) → u < most_nodes → bit room u ≡ one_if (ltb (copies_to rows.now g.partitions u) (get_or g.caps.now u 0)))
        × Kept rows.now g.former.now g.partitions g.mates.now all g.z (bit stale) kept.old }
    ensures { let g = given.now in (arcs.new
        ≡ arcs_of rows.now g.former.now g.partitions g.mates.now g.caps.now all g.z arcs.old)
        × Kept rows.now g.former.now g.partitions g.mates.now all g.z (bit 0) kept.new }
{
    for i in 0..unions::PARTS {
        let part = ((stale >> (unions::PARTS * i)) % BRANCH) as u32;
        renew(rows, tight, given, all, i, part, kept);
    }
    if arcs.len() < levels::ARCS {
        return;
    }
    unions::gather(arcs, kept);
    add_room(arcs, room, all);
}
