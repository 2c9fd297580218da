// The ordering of a finished run: rows that cannot be improved become the first of the nearest layouts.
#![tactic(auto)]

ghost use Rattle.std.specs.Prelude.{◌≡◌, ℕ, ◌≤◌, length};
ghost use Rattle.cluster.specs.Terms.{buffer_rows};
ghost use Rattle.exchange.specs.ModelRow.{weigh};
ghost use Rattle.exchange.proofs.Agreeing.{SameLayout};
ghost use Rattle.ties.specs.ModelOrder.{first_of};
ghost use Rattle.sets.specs.ModelBits.{bit, bits_at, below_of};
ghost use Rattle.holders.specs.ModelHolders.{Follows, Held};
ghost use Rattle.graph.specs.ModelKept.{Kept};
ghost use Rattle.steps.specs.ModelSteps.{cycle_in};
ghost use Rattle.improve.proofs.Ground.{Ground, Good};

use swaps::instance::Instance;
// Orders rows that cannot be improved: they become the first of the nearest layouts. `kept` holds what the leaves of rows allow that are not stale. Rows stay
// as they are where there are no nodes, or more than a set has.
pub fn order(
    rows: &mut [u32],
    tight: &mut [u32],
    held: &mut [u32],
    given: &Instance,
    nodes: u32,
    stale: u64,
    kept: &mut [u32],
)
    requires { let g = given.now in (g.partitions ≤ buffer_rows) × (g.partitions ≤ length rows.old)
        × Kept rows.old g.former.now g.partitions g.mates.now (below_of nodes) g.z (bit stale) kept.old
        × Follows g rows.old tight.old held.old × Held g.former.now g.partitions g.had.now }
    ensures { let g = given.now in (length rows.new ≡ length rows.old)
        × ((R : ℕ) (zone cap : ℕ → ℕ) → Ground g.partitions nodes R g.z zone cap g.former.now g.mates.now g.caps.now
        → Good g.partitions nodes R g.z zone cap rows.old
        → cycle_in g.former.now g.partitions g.mates.now g.caps.now nodes g.z rows.old ≡ 0
        → Good g.partitions nodes R g.z zone cap rows.new × SameLayout g.partitions nodes (bits_at rows.new)
        (first_of g.partitions nodes R g.z zone cap (bits_at g.former.now)
        (weigh g.partitions nodes (bits_at g.former.now) (bits_at rows.old)))) }
{
    if nodes == 0 {
        return;
    }
    if levels::NODES < nodes {
        return;
    }
    let arcs = steps::arcs(rows, tight, held, given, nodes, stale, kept);
    let levels = cycles::levels(&arcs, nodes);
    let even = leads::even(&levels, nodes);
    let mut leads = leads::lead(&arcs, &even, nodes);
    deciding::decide_rows(rows, tight, held, &mut leads, given, nodes, &even);
}
