// The exchanges of a walk are made in the rows, and what is kept of the rows follows. A row is a set of nodes; a walk of m arcs is two slices, its m + 1
// nodes and the partitions of its arcs.
#![tactic(auto)]

ghost use Rattle.std.specs.Prelude.{◌≡◌, ℕ, ◌/◌, ◌≤◌, ◌<◌, max, length, get_or, set};
ghost use Rattle.cluster.specs.Terms.{buffer_rows};
ghost use Rattle.sums.specs.ModelSums.{is};
ghost use Rattle.sets.specs.ModelBits.{bit, with_of, without_of};
ghost use Rattle.swaps.specs.ModelLeaves.{leaf_rows, ChangedIn};
ghost use Rattle.holders.specs.ModelHolders.{Follows};
ghost use Rattle.walks.specs.ModelWalks.{walk_in};
ghost use Rattle.exchanging.specs.ModelExchanged.{walked_of};

use swaps::instance::Instance;

// Node u of the row of partition p gives way to node v; what the row may not lose, and the sets of partitions, follow.
fn swap(
    rows: &mut [u32],
    tight: &mut [u32],
    held: &mut [u32],
    given: &Instance,
    p: usize,
    u: u32,
    v: u32,
)
    requires { let g = given.now in (p < g.partitions) × (g.partitions ≤ length rows.old) × (g.partitions ≤ buffer_rows) × Follows g rows.old tight.old held.old }
    ensures { let g = given.now in (rows.new ≡ set rows.old p (with_of (without_of (get_or rows.old p 0) u) v))
        × Follows g rows.new tight.new held.new }
{
    let row = sets::with(sets::without(rows[p], u), v);
    rows[p] = row;
    tight[p] = swaps::tight(given.mates, given.z, row);
    holders::exchange(held, p, u, v);
}

// The leaves of a set, and that of partition p.
fn mark(leaves: u64, p: usize) -> u64
    requires { p < buffer_rows }
    ensures { (l : ℕ) → bit result l ≡ max (bit leaves l) (is (p / leaf_rows) l) }
{
    leaves | (1 << (p / swaps::LEAF))
}

// The exchanges of the walk are made: each takes its source from its row and adds its target. The leaves of the changed rows are answered.
pub fn make(
    rows: &mut [u32],
    tight: &mut [u32],
    held: &mut [u32],
    given: &Instance,
    y: &[u32],
    q: &[u32],
    m: usize,
) -> u64
    requires { let g = given.now in (m < length y.now) × (m ≤ length q.now) × (g.partitions ≤ length rows.old) × (g.partitions ≤ buffer_rows)
        × Follows g rows.old tight.old held.old }
    ensures { let g = given.now in (rows.new ≡ walked_of g.partitions (walk_in m y.now q.now) rows.old)
        × ChangedIn result rows.old rows.new × Follows g rows.new tight.new held.new }
{
    let mut changed = 0;
    for i in 0..m {
        let p = q[i] as usize;
        if p < given.partitions {
            swap(rows, tight, held, given, p, y[i + 1], y[i]);
            changed = mark(changed, p);
        }
    }
    changed
}
