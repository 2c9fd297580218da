// Sums over the nodes, and over the zones.
ghost use Rattle.std.specs.Prelude.{◌≡◌, ◌≤◌, ◌<◌, ◌*◌, min};
ghost use Rattle.sums.specs.TermsSums.{sum_to};
ghost use Rattle.cluster.specs.Terms.{most_copies, most_nodes, buffer_rows};
ghost use Rattle.dealing.specs.ModelDeal.{in_zone, totals, has_room};
ghost use Rattle.incidence.specs.ModelIncidence.{cell, column};
ghost use Rattle.tallies.specs.ModelTallies.{AtMost, Below, most_in_zone};

use cluster::Cluster;

// The most copies that a zone can have: one of each partition on each node.
pub const ZONE: u32 = (Cluster::NODES * Cluster::PARTITIONS) as u32;

// The sum of the first n numbers, each counted up to `most`.
pub fn total(numbers: &[u32; Cluster::NODES], n: usize, most: u32) -> u32
    requires { (n ≤ most_nodes) × (most ≤ most_in_zone) }
    ensures { result ≡ sum_to n (λ b. min most (cell numbers.now b)) }
{
    let mut sum = 0;
    for number in &numbers[..n] {
        sum += most.min(*number);
    }
    sum
}

// The sum of the numbers of zone z among the first n nodes.
pub fn in_zone(
    zones: &[u32; Cluster::NODES],
    numbers: &[u32; Cluster::NODES],
    z: u32,
    n: usize,
) -> u32
    requires { (n ≤ most_nodes) × AtMost buffer_rows n numbers.now }
    ensures { result ≡ in_zone (cell zones.now) (cell numbers.now) z n }
{
    let mut sum = 0;
    for b in 0..n {
        if zones[b] == z {
            sum += numbers[b];
        }
    }
    sum
}

// The sum of the numbers of each zone.
pub fn zone_totals(
    zones: &[u32; Cluster::NODES],
    numbers: &[u32; Cluster::NODES],
    n: usize,
) -> [u32; Cluster::NODES]
    requires { (n ≤ most_nodes) × Below most_nodes n zones.now × AtMost buffer_rows n numbers.now }
    ensures { result ≡ column (totals (cell zones.now) (cell numbers.now) n) most_nodes }
{
    let mut sums = [0u32; Cluster::NODES];
    for b in 0..n {
        let z = zones[b] as usize;
        sums[z] += numbers[b];
    }
    sums
}

// Whether caps have room for R copies of each partition, and, counting at most P in a zone, for Z copies of each.
pub fn fit(
    zones: &[u32; Cluster::NODES],
    caps: &[u32; Cluster::NODES],
    n: usize,
    partitions: u32,
    replication: u32,
    redundancy: u32,
) -> bool
    requires { (n ≤ most_nodes) × (partitions ≤ buffer_rows) × (replication ≤ most_copies) × (redundancy ≤ most_copies)
        × Below most_nodes n zones.now × AtMost partitions n caps.now }
    ensures { result ≡ has_room partitions n replication redundancy (cell zones.now) (cell caps.now) }
{
    if total(caps, n, partitions) < replication * partitions {
        return false;
    }
    let sums = zone_totals(zones, caps, n);
    redundancy * partitions <= total(&sums, n, partitions)
}
