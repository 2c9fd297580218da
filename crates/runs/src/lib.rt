// The run of improvements with room of its own for the walks.
#![tactic(auto)]

ghost use Rattle.std.specs.Prelude.{◌≡◌, ◌≤◌, length};
ghost use Rattle.cluster.specs.Terms.{buffer_rows};
ghost use Rattle.sets.specs.ModelBits.{bit, below_of};
ghost use Rattle.holders.specs.ModelHolders.{Follows, Held};
ghost use Rattle.unions.specs.ModelUnions.{kept_cells};
ghost use Rattle.graph.specs.ModelKept.{Kept};
ghost use Rattle.improve.specs.ModelImprove.{ran_in};

use improve::Ended;
use swaps::instance::Instance;

// The run from the rows in hand, with an allowance of improvements. `kept` is room for what the rows allow; it may hold anything, and holds what the
// leaves of rows allow that are not stale after the run.
pub fn run(
    rows: &mut [u32],
    tight: &mut [u32],
    held: &mut [u32],
    given: &Instance,
    nodes: u32,
    allowance: u32,
    kept: &mut [u32],
) -> Ended
    requires { let g = given.now in (g.partitions ≤ buffer_rows) × (g.partitions ≤ length rows.old) × (length kept.old ≡ kept_cells)
        × Follows g rows.old tight.old held.old × Held g.former.now g.partitions g.had.now }
    ensures { let g = given.now in (rows.new
        ≡ (ran_in g.former.now g.partitions g.mates.now g.caps.now nodes g.z allowance rows.old).state.rows)
        × (result.finished
        ≡ (ran_in g.former.now g.partitions g.mates.now g.caps.now nodes g.z allowance rows.old).finished)
        × (result.improvements
        ≡ (ran_in g.former.now g.partitions g.mates.now g.caps.now nodes g.z allowance rows.old).steps)
        × (length rows.new ≡ length rows.old)
        × Follows g rows.new tight.new held.new
        × Kept rows.new g.former.now g.partitions g.mates.now (below_of nodes) g.z (bit result.stale) kept.new }
{
    let mut y = [0u32; cycles::WALK];
    let mut q = [0u32; cycles::WALK];
    improve::go(
        &mut y, &mut q, rows, tight, held, given, nodes, allowance, kept,
    )
}
