// A search for a simple negative cycle in a graph of at most levels::NODES nodes with weights −1, 0 and +1, level by level.
#![tactic(auto)]

ghost use Rattle.std.specs.Prelude.{◌≡◌, true, ℕ, ◌+◌, ◌≤◌, ◌<◌, length, get_or, unwrap_or, IfSome, IsNone};
ghost use Rattle.cells.specs.ModelCells.{put};
ghost use Rattle.cluster.specs.Terms.{most_nodes};
ghost use Rattle.sets.specs.ModelBits.{bit, member_of};
ghost use Rattle.exchange.specs.ModelLevels.{potential_found, dist, outcome, IsPotential};
ghost use Rattle.levels.specs.ModelGraph.{arc_cells, table_cells, graph_of};
ghost use Rattle.levels.specs.ModelTurns.{Settled, Nodes};
ghost use Rattle.cycles.specs.ModelFound.{walk_cells, end_length, end_walk, Levelled, found_length, found_walk};
ghost use Rattle.cycles.specs.ModelTrails.{behind, closer, trail, trail_length};

use cluster::Cluster;

// The cells of a walk: the nodes of a cycle, and its first one again.
pub const WALK: usize = Cluster::NODES + 1;
// The cells of a search's table: a row of nodes for each level, from 0 on.
const TABLE: usize = (Cluster::NODES + 1) * Cluster::NODES;

// The first node, of those that fell, that is behind itself on its way; where there is none, grown has the nodes behind each that fell.
fn close(n: u32, fell: u32, row: &[u8], way: &[u32], grown: &mut [u32]) -> Option<u32>
    requires { (n ≤ most_nodes) × (most_nodes ≤ length row.now) × (most_nodes ≤ length way.now) × (most_nodes ≤ length grown.old) × Nodes n fell × ((v : ℕ) → v < n → member_of fell v ≡ true → get_or row.now v 0 < most_nodes) }
    ensures first { (unwrap_or result n ≡ closer n fell row.now way.now) × IfSome result (λ v. v < n) }
    ensures grows { IsNone result → Settled (bit fell) (behind row.now way.now) grown.old grown.new }
{
    for v in sets::iter(fell) {
        let i = v as usize;
        let from = row[i] as u32;
        let w = sets::with(way[from as usize], from);
        if sets::member(w, v) {
            return Some(v);
        }
        grown[i] = w;
    }
    None
}

// Writes the walk back from v at level k, through the rows of the table, until it is at v again. Its length is returned.
fn trace(table: &[u8], k: u32, v: u32, walk: &mut [u32]) -> u32
    requires { (k ≤ most_nodes) × (table_cells ≤ length table.now) × (walk_cells ≤ length walk.old) × (trail_length table.now k v ≤ k) × ((t : ℕ) → t < k → trail table.now k v t < most_nodes) }
    ensures { (result ≡ trail_length table.now k v) × (walk.new ≡ put 0 (trail table.now k v) (trail_length table.now k v + 1) walk.old) }
{
    let mut x = v;
    for t in 0..k {
        walk[t as usize] = x;
        x = table[((k - t) * levels::NODES + x) as usize] as u32;
        if x == v {
            walk[t as usize + 1] = x;
            return t + 1;
        }
    }
    k
}

// How a search ended: the length of the cycle, 0 where there is none, and the distances of the last level that was reached with no cycle.
#[derive(Clone, Copy)]
struct Searched {
    length: u32,
    levels: [u32; Cluster::NODES],
}

// The search, level by level.
fn search(arcs: &[u32], n: u32, walk: &mut [u32]) -> Searched
    requires { (1 ≤ n) × (n ≤ most_nodes) × (arc_cells ≤ length arcs.now) × (walk_cells ≤ length walk.old) }
    ensures { ((result.length ≡ end_length (graph_of arcs.now n) (outcome (graph_of arcs.now n))) × (walk.new ≡ end_walk (graph_of arcs.now n) (outcome (graph_of arcs.now n)) walk.old)) × Levelled (graph_of arcs.now n) (outcome (graph_of arcs.now n)) result.levels }
{
    let mut dist = [n; Cluster::NODES];
    let mut next = [n; Cluster::NODES];
    // For each distance below n the set of the nodes that stand there or below: at first all stand at n.
    let mut atmost = [0u32; Cluster::NODES];
    // For each node the set of the nodes behind it on its way: at first there are none.
    let mut way = [0u32; Cluster::NODES];
    let mut grown = [0u32; Cluster::NODES];
    let mut table = [0u8; TABLE];
    let mut mask = sets::below(n);
    for k in 0..n {
        let fell = levels::descend(arcs, n, k, mask, &dist, &mut next, &mut table, &mut atmost);
        if fell == 0 {
            return Searched {
                length: 0,
                levels: dist,
            };
        }
        let a = ((k + 1) * levels::NODES) as usize;
        if let Some(v) = close(n, fell, &table[a..a + Cluster::NODES], &way, &mut grown) {
            let length = trace(&table, k + 1, v, walk);
            return Searched {
                length,
                levels: dist,
            };
        }
        dist = next;
        way = grown;
        mask = fell;
    }
    Searched {
        length: 0,
        levels: dist,
    }
}

// Searches the graph of arcs on n nodes for a simple negative cycle: its length, and the walk back around it in walk, whose first node comes again
// at its end. 0, and walk as it is, where there is none, n is 0 or above levels::NODES, arcs is shorter than levels::ARCS or walk shorter than WALK.
pub fn find(arcs: &[u32], n: u32, walk: &mut [u32]) -> u32
    ensures { (result ≡ found_length arcs.now n walk.old) × (walk.new ≡ found_walk arcs.now n walk.old) }
{
    if n == 0 || levels::NODES < n || arcs.len() < levels::ARCS || walk.len() < WALK {
        return 0;
    }
    search(arcs, n, walk).length
}

// The distances of the last level of a search of the graph of arcs on n nodes: a potential, where there is no negative cycle.
pub fn levels(arcs: &[u32], n: u32) -> [u32; Cluster::NODES]
    requires { (1 ≤ n) × (n ≤ most_nodes) × (arc_cells ≤ length arcs.now) }
    ensures { (length result ≡ most_nodes) × ((v : ℕ) → v < n → get_or result v 0 ≤ n) × ((k : ℕ) → outcome (graph_of arcs.now n) ≡ potential_found k → IsPotential (graph_of arcs.now n) (λ v. get_or result v 0))
        × ((k : ℕ) → outcome (graph_of arcs.now n) ≡ potential_found k → (v : ℕ) → v < n → get_or result v 0 ≡ dist (graph_of arcs.now n) k v) }
{
    let mut walk = [0u32; WALK];
    search(arcs, n, &mut walk).levels
}
