// One improvement of rows: the walk to turn next, and its turn. The walk that was turned last is kept: where it stands again in the new rows, it is turned
// again, and no graph is built and searched. What the rows allow is kept, too, so that a graph is built from the changed rows only.
#![tactic(auto)]

ghost use Rattle.std.specs.Prelude.{◌≡◌, ◌≤◌, length};
ghost use Rattle.cluster.specs.Terms.{most_nodes, buffer_rows};
ghost use Rattle.cycles.specs.ModelFound.{walk_cells};
ghost use Rattle.exchange.specs.ModelUncross.{Same};
ghost use Rattle.sets.specs.ModelBits.{bit, below_of};
ghost use Rattle.holders.specs.ModelHolders.{Follows, Held};
ghost use Rattle.walks.specs.ModelWalks.{walk_in};
ghost use Rattle.graph.specs.ModelKept.{Kept};
ghost use Rattle.steps.specs.ModelSteps.{arcs_in, found_in, sought_in, stepped_in};

use cluster::Cluster;
use swaps::instance::Instance;

// What a step leaves: how many arcs the walk in y and q has, and the leaves of rows of which nothing is kept.
#[derive(Clone, Copy)]
pub struct Left {
    pub len: usize,
    pub stale: u64,
}

// The masks of the exchange graph of the rows. `kept` holds what the leaves of rows allow that are not stale, and then what all allow.
pub fn arcs(
    rows: &[u32],
    tight: &[u32],
    held: &[u32],
    given: &Instance,
    nodes: u32,
    stale: u64,
    kept: &mut [u32],
) -> [u32; levels::ARCS]
    requires { let g = given.now in (g.partitions ≤ buffer_rows) × Kept rows.now g.former.now g.partitions g.mates.now (below_of nodes) g.z (bit stale) kept.old
        × Follows g rows.now tight.now held.now }
    ensures { let g = given.now in (result ≡ arcs_in g.former.now g.partitions g.mates.now g.caps.now nodes g.z rows.now)
        × Kept rows.now g.former.now g.partitions g.mates.now (below_of nodes) g.z (bit 0) kept.new }
{
    let all = sets::below(nodes);
    let room = holders::room(
        rows,
        given.partitions,
        held,
        given.caps,
        Cluster::NODES as u32,
    );
    let mut arcs = [0u32; levels::ARCS];
    graph::build(rows, tight, given, room, all, stale, kept, &mut arcs);
    arcs
}

// The walk of a cycle of the exchange graph into y and q. Its length is answered, 0 where there is none. `kept` holds what the leaves of rows allow that
// are not stale, and then what all allow.
fn search(
    y: &mut [u32],
    q: &mut [u32],
    rows: &[u32],
    tight: &[u32],
    held: &[u32],
    given: &Instance,
    nodes: u32,
    stale: u64,
    kept: &mut [u32],
) -> usize
    requires { let g = given.now in (walk_cells ≤ length y.old) × (walk_cells ≤ length q.old) × (g.partitions ≤ buffer_rows)
        × Kept rows.now g.former.now g.partitions g.mates.now (below_of nodes) g.z (bit stale) kept.old
        × Follows g rows.now tight.now held.now × Held g.former.now g.partitions g.had.now }
    ensures { let g = given.now in (result ≤ most_nodes) × (length y.new ≡ length y.old) × (length q.new ≡ length q.old)
        × Same (found_in g.former.now g.partitions g.mates.now g.caps.now nodes g.z rows.now) (walk_in result y.new q.new)
        × Kept rows.now g.former.now g.partitions g.mates.now (below_of nodes) g.z (bit 0) kept.new }
{
    let all = sets::below(nodes);
    let arcs = arcs(rows, tight, held, given, nodes, stale, kept);
    let mut walk = [0u32; cycles::WALK];
    let m = cycles::find(&arcs, nodes, &mut walk) as usize;
    circuits::load(y, q, &walk, m, rows, tight, held, given, &arcs, all);
    m
}

// The walk to turn next into y and q, which hold the one that was turned last; it has no arcs where there is none. `kept` holds what the leaves of rows
// allow that are not stale, before and after.
fn seek(
    y: &mut [u32],
    q: &mut [u32],
    last: Left,
    rows: &[u32],
    tight: &[u32],
    held: &[u32],
    given: &Instance,
    nodes: u32,
    kept: &mut [u32],
) -> Left
    requires { let g = given.now in (last.len ≤ most_nodes) × (walk_cells ≤ length y.old) × (walk_cells ≤ length q.old) × (g.partitions ≤ buffer_rows)
        × Kept rows.now g.former.now g.partitions g.mates.now (below_of nodes) g.z (bit last.stale) kept.old
        × Follows g rows.now tight.now held.now × Held g.former.now g.partitions g.had.now }
    ensures { let g = given.now in (result.len ≤ most_nodes) × (length y.new ≡ length y.old) × (length q.new ≡ length q.old)
        × Same (sought_in g.former.now g.partitions g.mates.now g.caps.now nodes g.z rows.now (walk_in last.len y.old q.old))
        (walk_in result.len y.new q.new)
        × Kept rows.now g.former.now g.partitions g.mates.now (below_of nodes) g.z (bit result.stale) kept.new }
{
    let all = sets::below(nodes);
    let len = last.len;
    if circuits::renew(y, q, len, rows, tight, held, given, all) {
        return last;
    }
    let stale = last.stale;
    let len = search(y, q, rows, tight, held, given, nodes, stale, kept);
    Left { len, stale: 0 }
}

// The walk to turn next; where it is allowed, it is turned, and what is left of it stays in y and q.
pub fn step(
    y: &mut [u32],
    q: &mut [u32],
    last: Left,
    rows: &mut [u32],
    tight: &mut [u32],
    held: &mut [u32],
    given: &Instance,
    nodes: u32,
    allowed: bool,
    kept: &mut [u32],
) -> Left
    requires { let g = given.now in (last.len ≤ most_nodes) × (walk_cells ≤ length y.old) × (walk_cells ≤ length q.old) × (g.partitions ≤ buffer_rows) × (g.partitions ≤ length rows.old)
        × Kept rows.old g.former.now g.partitions g.mates.now (below_of nodes) g.z (bit last.stale) kept.old
        × Follows g rows.old tight.old held.old × Held g.former.now g.partitions g.had.now }
    ensures { let g = given.now in (result.len ≤ most_nodes) × (length y.new ≡ length y.old) × (length q.new ≡ length q.old)
        × (rows.new
        ≡ (stepped_in g.former.now g.partitions g.mates.now g.caps.now nodes g.z allowed rows.old (walk_in last.len y.old q.old)).rows)
        × Same (stepped_in g.former.now g.partitions g.mates.now g.caps.now nodes g.z allowed rows.old (walk_in last.len y.old q.old)).last
        (walk_in result.len y.new q.new)
        × Kept rows.new g.former.now g.partitions g.mates.now (below_of nodes) g.z (bit result.stale) kept.new
        × Follows g rows.new tight.new held.new }
{
    let next = seek(y, q, last, rows, tight, held, given, nodes, kept);
    if !allowed {
        return next;
    }
    let all = sets::below(nodes);
    let turned = circuits::turn(y, q, next.len, rows, tight, held, given, all);
    let len = turned.len;
    let stale = next.stale | turned.changed;
    Left { len, stale }
}
