// An attempt to bring a pair in, by a circuit of even exchanges. leads[u] holds at least the nodes to which u could give way evenly in free pairs, or over the
// store; a member that turns out to be nowhere is taken off when a way needs it.
#![tactic(auto)]

ghost use Rattle.std.specs.Prelude.{◌≡◌, true, cond, suc, ◌≤◌, ◌<◌, length, get_or};
ghost use Rattle.cluster.specs.Terms.{most_nodes, buffer_rows};
ghost use Rattle.levels.specs.ModelGraph.{arc_cells};
ghost use Rattle.swaps.specs.ModelSwaps.{Tight};
ghost use Rattle.holders.specs.ModelHolders.{Follows, Held};
ghost use Rattle.evens.specs.ModelEvens.{givers_of};
ghost use Rattle.attempts.specs.ModelDeciding.{Goes, Refreshed, members};

use cluster::Cluster;
use swaps::instance::Instance;

// The cells of a way with its closing arc, and its first node again.
const WAY: usize = Cluster::NODES + 2;

// After the turn of a walk the rows that it changed lead anew, and the nodes beside those that a step over the store took a copy from.
fn refresh(
    leads: &mut [u32],
    rows: &[u32],
    tight: &[u32],
    given: &Instance,
    all: u32,
    even: &[u32],
    y: &[u32],
    q: &[u32],
    m: usize,
)
    requires { let g = given.now in (length leads.old ≡ most_nodes) × (length even.now ≡ arc_cells) × (m ≤ length y.now) × (m ≤ length q.now)
        × Tight g.mates.now g.z rows.now g.partitions tight.now }
    ensures { let g = given.now in Refreshed rows.now g.former.now g.partitions g.mates.now all g.z even.now y.now q.now m
        leads.old leads.new }
{
    for i in 0..m {
        let p = q[i] as usize;
        if p < given.partitions {
            let row = swaps::cell(rows, p);
            evens::widen(
                leads,
                row,
                tight[p],
                swaps::cell(given.former, p),
                given.mates,
                all,
                given.z,
                even,
            );
        } else {
            let v = y[i] as usize;
            if v < Cluster::NODES {
                arcs::join(leads, v, even[Cluster::NODES + v]);
            }
        }
    }
}

// Tries to bring the pair (p, b) in, where `goal` are the nodes that could give way to b at p. Whether it is to be tried again is answered: a member of `leads`
// was nowhere, and was taken off.
pub fn attempt(
    rows: &mut [u32],
    tight: &mut [u32],
    held: &mut [u32],
    leads: &mut [u32],
    given: &Instance,
    all: u32,
    even: &[u32],
    p: usize,
    b: u32,
    goal: u32,
) -> bool
    requires { let g = given.now in (b < most_nodes) × (p < g.partitions) × (g.partitions ≤ buffer_rows) × (g.partitions ≤ length rows.old) × (length leads.old ≡ most_nodes)
        × (length even.now ≡ arc_cells) × (goal ≡ givers_of g.mates.now all g.z even.now (get_or rows.old p 0) (get_or g.former.now p 0) b)
        × Follows g rows.old tight.old held.old × Held g.former.now g.partitions g.had.now }
    ensures { let g = given.now in (length rows.new ≡ length rows.old) × (length leads.new ≡ most_nodes)
        × Follows g rows.new tight.new held.new
        × (result ≡ true → (rows.new ≡ rows.old) × (members leads.new < members leads.old))
        × Goes g.partitions g.former.now g.mates.now g.caps.now all g.z even.now p b
        rows.old leads.old (cond result b (suc b)) rows.new leads.new }
{
    let mut waves = [0u32; waves::WAVES];
    let Some(k) = waves::waves(leads, b, goal, &mut waves) else {
        return false;
    };
    let mut y = [0u32; WAY];
    let mut q = [0u32; WAY];
    let traced = ways::trace(
        leads, &waves, k, goal, rows, tight, held, given, all, even, p, b, &mut y, &mut q,
    );
    if traced < k {
        let u = y[traced + 1] as usize;
        leads[u] = sets::without(leads[u], y[traced]);
        return true;
    }
    let m = k + 1;
    exchanging::make(rows, tight, held, given, &y, &q, m);
    refresh(leads, rows, tight, given, all, even, &y, &q, m);
    false
}
