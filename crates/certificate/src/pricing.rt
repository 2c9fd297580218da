// The prices of a layout at the cluster's size: from the levels of a search of its exchange graph.
ghost use Rattle.std.specs.Prelude.{◌≡◌, true, cond, ◌-◌, ◌≤◌, eqb, length, get_or};
ghost use Rattle.sums.specs.ModelSums.{max_to};
ghost use Rattle.cluster.specs.Terms.{most_nodes, buffer_rows, topology, partitions, ValidAt, fault_of};
ghost use Rattle.incidence.specs.ModelIncidence.{column};
ghost use Rattle.masks.specs.ModelMasks.{rows_formed};
ghost use Rattle.sizing.specs.ModelSizing.{cap_cells, size_of};
ghost use Rattle.steps.specs.ModelSteps.{arcs_in};
ghost use Rattle.certificate.specs.ModelCertificate.{arcs_at, cycle_at, price_cells};
ghost use Rattle.certificate.specs.TermsCertify.{former_in, new_in, unpriced, priced, certified_as};

use cluster::Cluster;
use cluster::refusal::Refusal;
use incidence::zones;
use layouts::check::Fault;
use swaps::instance::Instance;

// The highest of the first n levels.
fn highest(levels: &[u32], n: usize) -> u32
    requires { n ≤ length levels.now }
    ensures { result ≡ max_to n (λ v. get_or levels.now v 0) }
{
    let mut most = 0;
    for level in &levels[..n] {
        most = most.max(*level);
    }
    most
}

// What each of the first n levels lacks of the highest, then zeros.
fn lacking(levels: &[u32], n: usize) -> [u32; Cluster::NODES]
    requires { (n ≤ most_nodes) × (n ≤ length levels.now) }
    ensures { result ≡ column (λ b. max_to n (λ v. get_or levels.now v 0) - get_or levels.now b 0) n }
{
    let most = highest(levels, n);
    let mut prices = [0u32; Cluster::NODES];
    for b in 0..n {
        prices[b] = most - levels[b];
    }
    prices
}

// The masks of the exchange graph of rows.
fn rows_arcs(
    rows: &[u32],
    former: &[u32],
    partitions: usize,
    mates: &[u32],
    caps: &[u32],
    nodes: u32,
    z: u32,
) -> [u32; levels::ARCS]
    requires { partitions ≤ buffer_rows }
    ensures { result ≡ arcs_in former.now partitions mates.now caps.now nodes z rows.now }
{
    let mut tight = [0u32; Cluster::PARTITIONS];
    swaps::tighten(mates, z, rows, partitions, &mut tight);
    let mut held = [0u32; holders::CELLS];
    holders::fill(rows, partitions, &mut held);
    let mut kept = [0u32; graph::KEPT];
    // A graph is built from the rows alone: what was held of the former ones is not asked for.
    let given = Instance {
        former,
        had: &[],
        partitions,
        mates,
        caps,
        z,
    };
    steps::arcs(rows, &tight, &held, &given, nodes, u64::MAX, &mut kept)
}

// The masks of the exchange graph of a layout in hand; `caps` has the most copies that each node may hold at the cluster's size.
fn layout_arcs(
    c: Cluster,
    former: &[u32],
    assignment: &[u32],
    caps: [u32; Cluster::NODES],
) -> [u32; levels::ARCS]
    requires { (fault_of c ≡ 0) × (rows_formed former.now (partitions (topology c)) ≡ true) × (rows_formed assignment.now (partitions (topology c)) ≡ true)
        × (caps ≡ cap_cells (topology c) (size_of (topology c))) }
    ensures { result ≡ arcs_at (topology c) (former_in c former.now) (new_in c assignment.now) }
{
    let partitions = cluster::partitions(c.bits);
    let n = zones::used(c);
    let mut before = [0u32; Cluster::PARTITIONS];
    masks::read_masks(c, former, partitions, &mut before);
    let mut rows = [0u32; Cluster::PARTITIONS];
    masks::read_masks(c, assignment, partitions, &mut rows);
    let zones = zones::zones(c);
    let mates = caps::mates(zones, n);
    rows_arcs(
        &rows,
        &before,
        partitions,
        &mates,
        &caps,
        n as u32,
        c.redundancy,
    )
}

// The prices of a layout at the cluster's size, or that another one sends fewer.
pub(crate) fn price(
    c: Cluster,
    former: &[u32],
    assignment: &[u32],
    caps: [u32; Cluster::NODES],
) -> Result<[u32; Cluster::NODES], Fault>
    requires { (fault_of c ≡ 0) × (rows_formed former.now (partitions (topology c)) ≡ true) × (rows_formed assignment.now (partitions (topology c)) ≡ true)
        × (caps ≡ cap_cells (topology c) (size_of (topology c))) × ValidAt (topology c) (new_in c assignment.now) (size_of (topology c)) }
    ensures { certified_as result ≡ cond (eqb (cycle_at (topology c) (former_in c former.now) (new_in c assignment.now)) 0)
        (priced (price_cells (topology c) (former_in c former.now) (new_in c assignment.now))) (unpriced 20 0) }
{
    let n = zones::used(c);
    let arcs = layout_arcs(c, former, assignment, caps);
    let mut walk = [0u32; cycles::WALK];
    let length = cycles::find(&arcs, n as u32, &mut walk);
    if length != 0 {
        return Err(Refusal::Fewer.into());
    }
    let levels = cycles::levels(&arcs, n as u32);
    Ok(lacking(&levels, n))
}
