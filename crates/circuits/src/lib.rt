// From a cycle of the exchange graph to the exchanges in the rows: each arc gets a partition in which it is an exchange, the circuit is freed of
// crossed pairs, and its exchanges are made. A circuit that was turned may stand again in the new rows, at other partitions. A row is a set of nodes;
// a walk of m arcs is two slices, its m + 1 nodes and the partitions of its arcs.
#![tactic(auto)]

ghost use Rattle.std.specs.Prelude.{◌≡◌, true, ◌≤◌, ◌<◌, length};
ghost use Rattle.cluster.specs.Terms.{most_nodes, buffer_rows};
ghost use Rattle.exchange.specs.ModelUncross.{Same};
ghost use Rattle.swaps.specs.ModelLeaves.{ChangedIn};
ghost use Rattle.holders.specs.ModelHolders.{Follows, Held};
ghost use Rattle.walks.specs.ModelWalks.{walk_in, renewed, stands};
ghost use Rattle.freeing.specs.ModelFreed.{freed_of};
ghost use Rattle.circuits.specs.ModelCircuits.{cycle_of, turned_of};

use swaps::instance::Instance;

// The cycle of m arcs over the nodes of `walk` (arc i goes from walk[i + 1] to walk[i]) into y and q, each arc at its witness. `arcs` holds the
// exchange graph.
pub fn load(
    y: &mut [u32],
    q: &mut [u32],
    walk: &[u32],
    m: usize,
    rows: &[u32],
    tight: &[u32],
    held: &[u32],
    given: &Instance,
    arcs: &[u32],
    all: u32,
)
    requires { let g = given.now in (m < length y.old) × (m ≤ length q.old) × (m < length walk.now) × (g.partitions ≤ buffer_rows)
        × Follows g rows.now tight.now held.now × Held g.former.now g.partitions g.had.now }
    ensures { let g = given.now in (length y.new ≡ length y.old) × (length q.new ≡ length q.old)
        × Same (cycle_of rows.now g.former.now g.partitions g.mates.now arcs.now all g.z walk.now m)
        (walk_in m y.new q.new) }
{
    for t in 0..m {
        y[t] = walk[t];
        q[t] = walks::witness(rows, tight, held, given, arcs, all, walk[t + 1], walk[t]) as u32;
    }
    y[m] = walk[m];
}

// New partitions for the arcs of the walk, in the rows that its exchanges led to: each from its last one on, at the cost that it had. Whether all
// were found is answered; where one was not, q holds nothing of use.
pub fn renew(
    y: &[u32],
    q: &mut [u32],
    m: usize,
    rows: &[u32],
    tight: &[u32],
    held: &[u32],
    given: &Instance,
    all: u32,
) -> bool
    requires { let g = given.now in (m < length y.now) × (m ≤ length q.old) × (g.partitions ≤ buffer_rows)
        × Follows g rows.now tight.now held.now × Held g.former.now g.partitions g.had.now }
    ensures { let g = given.now in (length q.new ≡ length q.old)
        × (result ≡ stands rows.now g.former.now g.partitions g.mates.now all g.z g.caps.now (walk_in m y.now q.old))
        × (result ≡ true
        → Same (renewed rows.now g.former.now g.partitions g.mates.now all g.z (walk_in m y.now q.old))
        (walk_in m y.now q.new)) }
{
    for t in 0..m {
        let Some(p) = walks::renewed(rows, tight, held, given, all, q[t], y[t + 1], y[t]) else {
            return false;
        };
        q[t] = p as u32;
    }
    0 < m
}

// What is left of a walk that was turned: how many arcs, and the leaves of the rows that its turn changed.
#[derive(Clone, Copy)]
pub struct Turned {
    pub len: usize,
    pub changed: u64,
}

// The exchanges of the walk, freed of crossed pairs, are made in the rows. What is left of the walk stays in y and q.
pub fn turn(
    y: &mut [u32],
    q: &mut [u32],
    m: usize,
    rows: &mut [u32],
    tight: &mut [u32],
    held: &mut [u32],
    given: &Instance,
    all: u32,
) -> Turned
    requires { let g = given.now in (m ≤ most_nodes) × (m < length y.old) × (m ≤ length q.old) × (g.partitions ≤ length rows.old) × (g.partitions ≤ buffer_rows)
        × Follows g rows.old tight.old held.old }
    ensures { let g = given.now in (result.len ≤ m) × (length y.new ≡ length y.old) × (length q.new ≡ length q.old)
        × (rows.new
        ≡ turned_of rows.old g.former.now g.partitions g.mates.now all g.z (walk_in m y.old q.old))
        × Same (freed_of rows.old g.former.now g.partitions g.mates.now all g.z (walk_in m y.old q.old))
        (walk_in result.len y.new q.new)
        × ChangedIn result.changed rows.old rows.new × Follows g rows.new tight.new held.new }
{
    let n = freeing::free(y, q, m, rows, tight, given, all);
    let changed = exchanging::make(rows, tight, held, given, y, q, n);
    Turned { len: n, changed }
}
