// The size of a cluster and the layout that planning begins with. Every function is total: a cluster with a fault has the size 0, and
// nothing is dealt for it.
#![tactic(auto)]

ghost use Rattle.std.specs.Prelude.{◌≡◌, ℕ, ◌≤◌, ◌<◌, length};
ghost use Rattle.cluster.specs.Terms.{topology, partitions, node_at, usable, fault_of};
ghost use Rattle.incidence.specs.ModelIncidence.{zone_index, cap_at, zone_cells};
ghost use Rattle.dealing.specs.ModelDeal.{has_room};
ghost use Rattle.sizing.specs.ModelSizing.{size_of, size_in, dealt_rows, dealt_in};

use cluster::Cluster;
use incidence::zones;
use tallies::totals;

// The bits of a size: it is at most what may be filled of a disk, which is a u32.
const SIZE_BITS: u32 = 32;

// Whether the caps of a size have room for a layout; a size above `most`, the largest usable capacity, needs no caps.
fn passes(c: Cluster, zones: &[u32; Cluster::NODES], most: u32, size: u32) -> bool
    requires { (fault_of c ≡ 0) × (zones.now ≡ zone_cells (topology c)) × ((b : ℕ) → b < length (topology c).nodes → usable (node_at (topology c) b) ≤ most) }
    ensures { result ≡ has_room (partitions (topology c)) (length (topology c).nodes) c.replication c.redundancy (zone_index (topology c))
        (cap_at (topology c) size) }
{
    if most < size {
        return false;
    }
    let n = zones::used(c);
    let caps = caps::caps(c, size);
    totals::fit(
        zones,
        &caps,
        n,
        cluster::partitions(c.bits) as u32,
        c.replication,
        c.redundancy,
    )
}

// The size of a cluster without fault, from the highest bit down.
fn bisected(c: Cluster) -> u32
    requires { fault_of c ≡ 0 }
    ensures { result ≡ size_of (topology c) }
{
    let zones = zones::zones(c);
    let most = caps::greatest(c);
    let mut size = 0;
    for i in (0..SIZE_BITS).rev() {
        let larger = size + (1 << i);
        if passes(c, &zones, most, larger) {
            size = larger;
        }
    }
    size
}

// The largest size at which a cluster has a layout; 0 where it has none, or a fault.
pub fn size(c: Cluster) -> u32
    ensures { result ≡ size_in c }
{
    if let Ok(()) = c.accept() {
        bisected(c)
    } else {
        0
    }
}

// Deals the layout of a cluster without fault into the first P cells.
fn begin(c: Cluster, size: u32, rows: &mut [u32])
    requires { (fault_of c ≡ 0) × (partitions (topology c) ≤ length rows.old) }
    ensures { rows.new ≡ dealt_rows (topology c) size rows.old }
{
    let n = zones::used(c);
    let most = cluster::partitions(c.bits) as u32;
    let zones = zones::zones(c);
    let caps = caps::caps(c, size);
    let copies = shares::given(&zones, &caps, n, most, c.replication);
    let starts = line::starts(&zones, &copies, n, most);
    deals::deal(rows, &starts, &copies, n, most);
}

// Deals the layout that planning begins with at a size: each of the first P cells becomes the set of the nodes of its partition's row.
// Nothing is written where the cluster has a fault or there are fewer than P cells.
pub fn deal(c: Cluster, size: u32, rows: &mut [u32])
    ensures { rows.new ≡ dealt_in c size rows.old }
{
    if let Ok(()) = c.accept() {
        if cluster::partitions(c.bits) <= rows.len() {
            begin(c, size, rows);
        }
    }
}
