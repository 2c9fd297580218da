// The copies that the nodes hold, counted in the order of the rows.
#![tactic(auto)]

ghost use Rattle.std.specs.Prelude.{◌≡◌, true, ℕ, ◌+◌, ◌≤◌, ◌<◌, length};
ghost use Rattle.cluster.specs.Terms.{buffer_rows, layout_cells, topology, partitions, row_at, formed, fault_of};
ghost use Rattle.copies.specs.TermsCounts.{counts_after};

use cluster::Cluster;

// One row of the walk: the nodes that row p names are met from the lowest on, and each has one copy more. Before it the counts are the copies in the rows
// before p, after it those in the rows up to p (`counted` in proofs/Counted.antt).
fn count_row(c: Cluster, cells: &[u32], p: usize, counts: &mut [u32])
    requires { (fault_of c ≡ 0) × (p < buffer_rows) × (layout_cells ≤ length cells.now) × (counts.old ≡ counts_after (topology c) cells.now p) × (formed (row_at cells.now p) ≡ true) }
    ensures { counts.new ≡ counts_after (topology c) cells.now (p + 1) }
{
    let nodes = masks::row_mask(c, cells, p);
    for b in sets::iter(nodes) {
        counts[b as usize] += 1;
    }
}

// The copies that each node holds in the first P rows, each of rising ids followed by zeros: one walk over the rows, in their order.
pub fn copies(c: Cluster, cells: &[u32]) -> [u32; Cluster::NODES]
    requires { (fault_of c ≡ 0) × (layout_cells ≤ length cells.now)
        × ((p : ℕ) → p < partitions (topology c) → formed (row_at cells.now p) ≡ true) }
    ensures { result ≡ counts_after (topology c) cells.now (partitions (topology c)) }
{
    let partitions = cluster::partitions(c.bits);
    let mut counts = [0u32; Cluster::NODES];
    for p in 0..partitions {
        count_row(c, cells, p, &mut counts);
    }
    counts
}
