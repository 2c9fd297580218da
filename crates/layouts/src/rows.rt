// The faults of the rows of an assignment, each taken as a set of nodes and a set of zones.
ghost use Rattle.std.specs.Prelude.{◌≡◌, ◌≤◌, ◌<◌, length};
ghost use Rattle.cluster.specs.TermsRefusal.{refusal_of};
ghost use Rattle.cluster.specs.Terms.{buffer_rows, layout_cells, topology, partitions, fault_of};
ghost use Rattle.incidence.specs.ModelIncidence.{zone_cells};
ghost use Rattle.layouts.specs.TermsCheck.{row_fault};
ghost use Rattle.layouts.specs.ModelScans.{zones_in};

use cluster::Cluster;
use cluster::refusal::Refusal;

// The set of the zones of a set of nodes.
fn zones_in(zones: [u32; Cluster::NODES], nodes: u32) -> u32
    ensures { result ≡ zones_in zones nodes }
{
    let mut covered = 0;
    for b in sets::iter(nodes) {
        covered = sets::with(covered, zones[b as usize]);
    }
    covered
}

// The fault of row p, of the first P.
fn own_row_fault(
    c: Cluster,
    zones: [u32; Cluster::NODES],
    cells: &[u32],
    p: usize,
) -> Result<(), Refusal>
    requires { (fault_of c ≡ 0) × (zones ≡ zone_cells (topology c)) × (p < partitions (topology c)) × (layout_cells ≤ length cells.now) }
    ensures { refusal_of result ≡ row_fault (topology c) cells.now p }
{
    if cell_rows::row_ids(cells, p) != Some(c.replication) {
        return Err(Refusal::Row);
    }
    let nodes = masks::row_mask(c, cells, p);
    if sets::count(nodes) != c.replication {
        return Err(Refusal::Row);
    }
    if sets::count(zones_in(zones, nodes)) < c.redundancy {
        return Err(Refusal::Zones);
    }
    Ok(())
}

// The fault of row p.
pub(crate) fn row_fault(
    c: Cluster,
    zones: [u32; Cluster::NODES],
    cells: &[u32],
    p: usize,
) -> Result<(), Refusal>
    requires { (fault_of c ≡ 0) × (zones ≡ zone_cells (topology c)) × (p < buffer_rows) × (layout_cells ≤ length cells.now) }
    ensures { refusal_of result ≡ row_fault (topology c) cells.now p }
{
    if p < cluster::partitions(c.bits) {
        return own_row_fault(c, zones, cells, p);
    }
    if cell_rows::row_is_blank(cells, p) {
        Ok(())
    } else {
        Err(Refusal::Row)
    }
}
