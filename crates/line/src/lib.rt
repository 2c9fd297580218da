// The line of all copies: where each node's copies begin in it.
#![tactic(auto)]

ghost use Rattle.std.specs.Prelude.{◌≡◌, ◌≤◌, ◌<◌, ◌%◌};
ghost use Rattle.sums.specs.TermsSums.{sum_to};
ghost use Rattle.cluster.specs.Terms.{most_nodes, buffer_rows};
ghost use Rattle.dealing.specs.ModelDeal.{light, zone_start, start};
ghost use Rattle.incidence.specs.ModelIncidence.{cell, column};
ghost use Rattle.tallies.specs.ModelTallies.{AtMost, Below, most_in_zone};

use cluster::Cluster;
use tallies::totals;

// The copies of the first n zones that have fewer than P.
fn light(sums: &[u32; Cluster::NODES], n: usize, partitions: u32) -> u32
    requires { (n ≤ most_nodes) × AtMost most_in_zone most_nodes sums.now }
    ensures { result ≡ sum_to n (light partitions (cell sums.now)) }
{
    let mut sum = 0;
    for copies in &sums[..n] {
        if *copies < partitions {
            sum += *copies;
        }
    }
    sum
}

// Where zone z begins in the line, of n zones: the light ones in their order, then the heavy ones, whose copies are all but the light ones.
fn zone_begins(sums: &[u32; Cluster::NODES], z: usize, n: usize, partitions: u32) -> u32
    requires { (z < most_nodes) × (n ≤ most_nodes) × AtMost most_in_zone most_nodes sums.now }
    ensures { result ≡ zone_start partitions n (cell sums.now) z }
{
    let before = light(sums, z, partitions);
    if sums[z] < partitions {
        return before;
    }
    light(sums, n, partitions) + (totals::total(sums, z, totals::ZONE) - before)
}

// The partition to which the first copy of each node goes.
pub fn starts(
    zones: &[u32; Cluster::NODES],
    copies: &[u32; Cluster::NODES],
    n: usize,
    partitions: u32,
) -> [u32; Cluster::NODES]
    requires { (n ≤ most_nodes) × (0 < partitions) × Below most_nodes n zones.now
        × AtMost buffer_rows n copies.now }
    ensures { result ≡ column (λ b. start partitions n (cell zones.now) (cell copies.now) b % partitions) n }
{
    let sums = totals::zone_totals(zones, copies, n);
    let mut starts = [0u32; Cluster::NODES];
    for b in 0..n {
        let z = zones[b];
        let begin = zone_begins(&sums, z as usize, n, partitions);
        starts[b] = (begin + totals::in_zone(zones, copies, z, b)) % partitions;
    }
    starts
}
