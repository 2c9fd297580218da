// How many copies each node is given: in a first pass at most P for each zone, in a second pass what is left.
#![tactic(auto)]

ghost use Rattle.std.specs.Prelude.{◌≡◌, ◌≤◌, ◌<◌, ◌-◌, ◌+◌};
ghost use Rattle.cluster.specs.Terms.{most_copies, most_nodes, buffer_rows};
ghost use Rattle.dealing.specs.ModelDeal.{pour, zoned, given};
ghost use Rattle.incidence.specs.ModelIncidence.{cell, column};
ghost use Rattle.tallies.specs.ModelTallies.{AtMost};

use cluster::Cluster;
use tallies::totals;

// What of node b's cap still goes into its zone.
fn zoned(
    zones: &[u32; Cluster::NODES],
    caps: &[u32; Cluster::NODES],
    partitions: u32,
    b: usize,
) -> u32
    requires { (b < most_nodes) × AtMost buffer_rows b caps.now }
    ensures { result ≡ zoned partitions (cell zones.now) (cell caps.now) b }
{
    let left = partitions.saturating_sub(totals::in_zone(zones, caps, zones[b], b));
    left.min(caps[b])
}

// The first pass: at most P copies to a zone, `room` copies in all.
fn first(
    zones: &[u32; Cluster::NODES],
    caps: &[u32; Cluster::NODES],
    n: usize,
    partitions: u32,
    room: u32,
) -> [u32; Cluster::NODES]
    requires { (n ≤ most_nodes) × AtMost buffer_rows n caps.now }
    ensures { result ≡ column (pour room (zoned partitions (cell zones.now) (cell caps.now))) n }
{
    let mut copies = [0u32; Cluster::NODES];
    let mut left = room;
    for b in 0..n {
        let given = left.min(zoned(zones, caps, partitions, b));
        copies[b] = given;
        left -= given;
    }
    copies
}

// Both passes: the copies of the first, and what is left of `room`, up to the caps.
fn second(
    caps: &[u32; Cluster::NODES],
    first: &[u32; Cluster::NODES],
    n: usize,
    room: u32,
) -> [u32; Cluster::NODES]
    requires { (n ≤ most_nodes) × AtMost buffer_rows n caps.now × AtMost buffer_rows n first.now }
    ensures { result ≡ column (λ b. cell first.now b
        + pour room (λ x. cell caps.now x - cell first.now x) b) n }
{
    let mut copies = [0u32; Cluster::NODES];
    let mut left = room;
    for b in 0..n {
        let more = left.min(caps[b].saturating_sub(first[b]));
        copies[b] = first[b] + more;
        left -= more;
    }
    copies
}

// The copies that each node is given.
pub fn given(
    zones: &[u32; Cluster::NODES],
    caps: &[u32; Cluster::NODES],
    n: usize,
    partitions: u32,
    replication: u32,
) -> [u32; Cluster::NODES]
    requires { (n ≤ most_nodes) × (partitions ≤ buffer_rows) × (replication ≤ most_copies) × AtMost buffer_rows n caps.now }
    ensures { result ≡ column (given partitions n replication (cell zones.now) (cell caps.now)) n }
{
    let room = replication * partitions;
    let first = first(zones, caps, n, partitions, room);
    let placed = totals::total(&first, n, Cluster::PARTITIONS as u32);
    second(caps, &first, n, room.saturating_sub(placed))
}
