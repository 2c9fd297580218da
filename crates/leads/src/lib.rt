// The sets of nodes by level, from the levels of a search: cell NODES * h + a of `even` has the nodes that stand h - 1 above a. And the nodes that each node leads
// to by an arc that weighs just what their levels differ by.
#![tactic(auto)]

ghost use Rattle.std.specs.Prelude.{◌≡◌, ℕ, ◌+◌, ◌≤◌, ◌<◌, min, ltb, length, get_or};
ghost use Rattle.sums.specs.TermsSums.{one_if};
ghost use Rattle.sums.specs.ModelSums.{is};
ghost use Rattle.cluster.specs.Terms.{most_nodes};
ghost use Rattle.levels.specs.ModelGraph.{arc_cells};
ghost use Rattle.sets.specs.ModelBits.{bit};
ghost use Rattle.evens.specs.ModelEvens.{Levelled, lead_of};

use cluster::Cluster;

// The cells of the sets of nodes by level: a level below the least and one above the largest.
const STANDS: usize = Cluster::NODES + 3;

// For each level the set of the nodes that stand there; cell c has those at level c - 1.
fn stands(levels: &[u32], n: u32) -> [u32; STANDS]
    requires { (n ≤ most_nodes) × (most_nodes ≤ length levels.now) × ((v : ℕ) → v < n → get_or levels.now v 0 ≤ most_nodes) }
    ensures { (length result ≡ most_nodes + 3) × ((c v : ℕ) → c < most_nodes + 3 → v < most_nodes
        → bit (get_or result c 0) v ≡ min (one_if (ltb v n)) (is (get_or levels.now v 0 + 1) c)) }
{
    let mut at = [0u32; STANDS];
    for v in 0..n {
        let c = levels[v as usize] as usize + 1;
        at[c] = sets::with(at[c], v);
    }
    at
}

// For each node the sets of the nodes that stand one below it, beside it and one above it.
pub fn even(levels: &[u32], n: u32) -> [u32; levels::ARCS]
    requires { (n ≤ most_nodes) × (most_nodes ≤ length levels.now) × ((v : ℕ) → v < n → get_or levels.now v 0 ≤ most_nodes) }
    ensures { Levelled n (λ v. get_or levels.now v 0) result }
{
    let at = stands(levels, n);
    let mut even = [0u32; levels::ARCS];
    for a in 0..n as usize {
        let c = levels[a] as usize;
        even[a] = at[c];
        even[Cluster::NODES + a] = at[c + 1];
        even[2 * Cluster::NODES + a] = at[c + 2];
    }
    even
}

// The nodes that each node leads to by an arc that weighs what their levels differ by.
pub fn lead(arcs: &[u32], even: &[u32], n: u32) -> [u32; Cluster::NODES]
    requires { (n ≤ most_nodes) × (arc_cells ≤ length arcs.now) × (arc_cells ≤ length even.now) }
    ensures { (length result ≡ most_nodes) × ((u : ℕ) → u < n → get_or result u 0 ≡ lead_of arcs.now even.now u)
        × ((u : ℕ) → n ≤ u → u < most_nodes → get_or result u 0 ≡ 0) }
{
    let mut leads = [0u32; Cluster::NODES];
    for u in 0..n as usize {
        let i = Cluster::NODES + u;
        let j = 2 * Cluster::NODES + u;
        let low = sets::meet(arcs[u], even[u]);
        let beside = sets::meet(arcs[i], even[i]);
        let high = sets::meet(arcs[j], even[j]);
        leads[u] = sets::union(low, sets::union(beside, high));
    }
    leads
}
