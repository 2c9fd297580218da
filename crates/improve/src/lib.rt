// The run of improvements, until there is none or the allowance is spent.
#![tactic(auto)]

ghost use Rattle.std.specs.Prelude.{◌≡◌, ◌≤◌, length, replicate};
ghost use Rattle.cluster.specs.Terms.{buffer_rows};
ghost use Rattle.cycles.specs.ModelFound.{walk_cells};
ghost use Rattle.sets.specs.ModelBits.{bit, below_of};
ghost use Rattle.holders.specs.ModelHolders.{Follows, Held};
ghost use Rattle.unions.specs.ModelUnions.{kept_cells};
ghost use Rattle.graph.specs.ModelKept.{Kept};
ghost use Rattle.improve.specs.ModelImprove.{ran_in};

use steps::Left;
use swaps::instance::Instance;

// How a run ended: whether nothing is left to improve, how many improvements were made, and the leaves of rows of which nothing is kept.
#[derive(Clone, Copy)]
pub struct Ended {
    pub finished: bool,
    pub improvements: u32,
    pub stale: u64,
}

// The run from the rows in hand, with an allowance of improvements; y and q hold no walk, and `kept` nothing of the rows. A run that has spent its
// allowance looks once more for a walk without turning it.
pub fn go(
    y: &mut [u32],
    q: &mut [u32],
    rows: &mut [u32],
    tight: &mut [u32],
    held: &mut [u32],
    given: &Instance,
    nodes: u32,
    allowance: u32,
    kept: &mut [u32],
) -> Ended
    requires { let g = given.now in (g.partitions ≤ buffer_rows) × (g.partitions ≤ length rows.old) × (y.old ≡ replicate walk_cells 0) × (q.old ≡ replicate walk_cells 0)
        × (length kept.old ≡ kept_cells) × Follows g rows.old tight.old held.old × Held g.former.now g.partitions g.had.now }
    ensures { let g = given.now in (rows.new
        ≡ (ran_in g.former.now g.partitions g.mates.now g.caps.now nodes g.z allowance rows.old).state.rows)
        × (result.finished
        ≡ (ran_in g.former.now g.partitions g.mates.now g.caps.now nodes g.z allowance rows.old).finished)
        × (result.improvements
        ≡ (ran_in g.former.now g.partitions g.mates.now g.caps.now nodes g.z allowance rows.old).steps)
        × (length rows.new ≡ length rows.old)
        × Follows g rows.new tight.new held.new
        × Kept rows.new g.former.now g.partitions g.mates.now (below_of nodes) g.z (bit result.stale) kept.new }
{
    let mut last = Left {
        len: 0,
        stale: u64::MAX,
    };
    for done in 0..=allowance {
        last = steps::step(
            y,
            q,
            last,
            rows,
            tight,
            held,
            given,
            nodes,
            done < allowance,
            kept,
        );
        if last.len == 0 {
            return Ended {
                finished: true,
                improvements: done,
                stale: last.stale,
            };
        }
    }
    Ended {
        finished: false,
        improvements: allowance,
        stale: last.stale,
    }
}
