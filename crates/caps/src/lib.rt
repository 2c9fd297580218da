// What is read off the nodes of a cluster: the sets of the nodes of a zone, the most copies that each may hold at a size, and the largest usable capacity.
// Every function is total.
#![tactic(auto)]

ghost use Rattle.std.specs.Prelude.{◌≡◌, ℕ, ◌≤◌, ◌<◌, length};
ghost use Rattle.cluster.specs.Terms.{topology, node_at, usable};
ghost use Rattle.cluster.specs.TermsReading.{Fits32};
ghost use Rattle.caps.specs.ModelCaps.{mate_cells, caps_in};

use cluster::Cluster;
use incidence::zones;
use tallies::nodes;

// For each of the first n nodes, at most as many as a cluster has, the set of the nodes of its zone, then zeros.
pub fn mates(zones: [u32; Cluster::NODES], n: usize) -> [u32; Cluster::NODES]
    ensures { result ≡ mate_cells zones n }
{
    let m = n.min(Cluster::NODES);
    let mut mates = [0u32; Cluster::NODES];
    for b in 0..m {
        let z = zones[b];
        mates[b] = nodes::of_zone(&zones, m, z);
    }
    mates
}

// The most copies that each node in use may hold at a size, then zeros; none at the size 0. It tells too that capacities are numbers of
// 32 bits.
pub fn caps(c: Cluster, size: u32) -> [u32; Cluster::NODES]
    ensures { (result ≡ caps_in c size) × Fits32 (topology c) }
{
    let n = zones::used(c);
    let most = cluster::partitions(c.bits) as u32;
    let mut caps = [0u32; Cluster::NODES];
    for b in 0..n {
        let node = c.nodes[b];
        let usable = node.usable();
        let highest = most.min(node.ceiling as u32);
        caps[b] = nodes::cap(usable, highest, size);
    }
    caps
}

// The largest usable capacity of the nodes in use.
pub fn greatest(c: Cluster) -> u32
    ensures { (b : ℕ) → b < length (topology c).nodes → usable (node_at (topology c) b) ≤ result }
{
    let n = zones::used(c);
    let mut most = 0;
    for node in &c.nodes[..n] {
        most = most.max(node.usable());
    }
    most
}
