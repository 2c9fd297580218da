// A way back through waves: its nodes in y, and in q the partition in which each arc is an even exchange, or the number of partitions for a step over the
// store of free room. Pairs are free from the pair (p, b) on.
#![tactic(auto)]

ghost use Rattle.std.specs.Prelude.{◌≡◌, suc, ◌≤◌, ◌<◌, length, unwrap_or, IfSome};
ghost use Rattle.cluster.specs.Terms.{most_nodes, buffer_rows};
ghost use Rattle.levels.specs.ModelGraph.{arc_cells};
ghost use Rattle.holders.specs.ModelHolders.{Follows, Held};
ghost use Rattle.waves.specs.ModelWaves.{wave_cells, Waved};
ghost use Rattle.ways.specs.ModelWays.{weight_in, arc_for, Traced};

use cluster::Cluster;
use swaps::instance::Instance;

// The weight, more by 1, at which an exchange of u for v is even, if it is even at any.
fn weight(even: &[u32], u: u32, v: u32) -> Option<u32>
    requires { (u < most_nodes) × (arc_cells ≤ length even.now) }
    ensures { (unwrap_or result 3 ≡ weight_in even.now u v) × IfSome result (λ w. w < 3) }
{
    let i = u as usize;
    if sets::member(even[i], v) {
        return Some(0);
    }
    if sets::member(even[Cluster::NODES + i], v) {
        return Some(1);
    }
    if sets::member(even[2 * Cluster::NODES + i], v) {
        return Some(2);
    }
    None
}

// Where u gives way to v, if anywhere: `partitions` for a step over the store, which needs no look at the rows; else a partition.
fn arc(
    rows: &[u32],
    tight: &[u32],
    held: &[u32],
    given: &Instance,
    all: u32,
    even: &[u32],
    p: usize,
    b: u32,
    u: u32,
    v: u32,
) -> Option<usize>
    requires { let g = given.now in (u < most_nodes) × (p < g.partitions) × (g.partitions ≤ buffer_rows) × (arc_cells ≤ length even.now)
        × Follows g rows.now tight.now held.now × Held g.former.now g.partitions g.had.now }
    ensures { let g = given.now in (unwrap_or result (suc g.partitions) ≡ arc_for rows.now g.former.now g.partitions g.mates.now g.caps.now all g.z even.now p b u v)
        × IfSome result (λ q. q ≤ g.partitions) }
{
    let w = weight(even, u, v)?;
    if w == 1 && walks::room(rows, held, given.partitions, given.caps, u) {
        return Some(given.partitions);
    }
    let start = if b < u && b < v { p } else { p + 1 };
    walks::first(rows, tight, held, given, all, w, u, v, start)
}

// Traces a way back through the first k + 1 waves from b, from the least node of the goal in the last of them. How many arcs were traced is answered: all k, and
// the way is closed by the arc at p; or fewer, and the next arc, whose nodes stand in y, is nowhere.
pub fn trace(
    leads: &[u32],
    waves: &[u32],
    k: usize,
    goal: u32,
    rows: &[u32],
    tight: &[u32],
    held: &[u32],
    given: &Instance,
    all: u32,
    even: &[u32],
    p: usize,
    b: u32,
    y: &mut [u32],
    q: &mut [u32],
) -> usize
    requires { let g = given.now in (b < most_nodes) × (k < wave_cells) × (p < g.partitions) × (g.partitions ≤ buffer_rows) × (most_nodes ≤ length leads.now) × (wave_cells ≤ length waves.now)
        × (arc_cells ≤ length even.now) × (suc k < length y.old) × (k < length q.old) × Waved leads.now b goal k waves.now
        × Follows g rows.now tight.now held.now × Held g.former.now g.partitions g.had.now }
    ensures { let g = given.now in (length y.new ≡ length y.old) × (length q.new ≡ length q.old)
        × Traced leads.now b goal k result
        (arc_for rows.now g.former.now g.partitions g.mates.now g.caps.now all g.z even.now p b)
        g.partitions p y.new q.new }
{
    y[0] = sets::least(sets::meet(waves[k], goal));
    for i in 0..k {
        let v = y[i];
        let u = waves::source(leads, waves[k - i - 1], v).unwrap();
        y[i + 1] = u;
        let Some(at) = arc(rows, tight, held, given, all, even, p, b, u, v) else {
            return i;
        };
        q[i] = at as u32;
    }
    y[k + 1] = y[0];
    q[k] = p as u32;
    k
}
