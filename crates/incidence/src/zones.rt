// The nodes in use: how many there are, and their zones, each named by its first node.
ghost use Rattle.std.specs.Prelude.{◌≡◌, ◌<◌, ◌≤◌, length};
ghost use Rattle.cluster.specs.Terms.{most_nodes, topology};
ghost use Rattle.incidence.specs.ModelIncidence.{zone_index, zone_cells};

use cluster::Cluster;

// How many nodes are in use, of a cluster of any count.
pub fn used(c: Cluster) -> usize
    ensures { (result ≡ length (topology c).nodes) × (result ≤ most_nodes) × (result ≤ c.count) }
{
    c.count.min(Cluster::NODES)
}

// The first node of the zone of node b.
fn zone_index(c: Cluster, b: usize) -> u32
    requires { (b < c.count) × (b < most_nodes) }
    ensures { result ≡ zone_index (topology c) b }
{
    let zone = c.nodes[b].zone;
    for i in 0..b {
        if c.nodes[i].zone == zone {
            return i as u32;
        }
    }
    b as u32
}

// The zone of each node in use, as the index of the first node of the same zone, then zeros.
pub fn zones(c: Cluster) -> [u32; Cluster::NODES]
    ensures { result ≡ zone_cells (topology c) }
{
    let n = used(c);
    let mut zones = [0u32; Cluster::NODES];
    for b in 0..n {
        zones[b] = zone_index(c, b);
    }
    zones
}
