// Whether an assignment is a layout valid at a size, or else its first fault.
ghost use Rattle.std.specs.Prelude.{◌≡◌, ◌≤◌, length};
ghost use Rattle.cluster.specs.Terms.{layout_cells, topology, partitions, rows_in, fault_of};
ghost use Rattle.cluster.specs.TermsRefusal.{refusal_of};
ghost use Rattle.layouts.specs.TermsCheck.{cluster_fault, rows_fault, nodes_fault, check_of, at_none, checked_as};

use super::rows;
use cluster::Cluster;
use cluster::refusal::Refusal;
use incidence::zones;

// Why a layout is refused, and its place: a partition with 10 and 11, a node's id with 12, else 0.
#[derive(Clone, Copy, PartialEq, Eq)]
pub struct Fault {
    pub refusal: Refusal,
    pub place: u32,
}

// What is refused at no place has place 0.
impl From<Refusal> for Fault {
    ghost from_gives = { λ refusal fault. fault ≡ at_none refusal };

    fn from(refusal: Refusal) -> Fault {
        Fault { refusal, place: 0 }
    }
}

// The cluster's fault, or that of a size 0.
fn cluster_fault(c: Cluster, size: u32) -> Result<(), Refusal>
    ensures { refusal_of result ≡ cluster_fault c size }
{
    if Cluster::NODES < c.count {
        return Err(Refusal::Nodes);
    }
    if size == 0 {
        return Err(Refusal::Range);
    }
    c.accept()
}

// The first row with a fault.
fn rows_fault(c: Cluster, cells: &[u32]) -> Result<(), Fault>
    requires { (fault_of c ≡ 0) × (layout_cells ≤ length cells.now) }
    ensures { checked_as result ≡ rows_fault (topology c) cells.now }
{
    let zones = zones::zones(c);
    for p in 0..Cluster::PARTITIONS {
        if let Err(refusal) = rows::row_fault(c, zones, cells, p) {
            return Err(Fault {
                refusal,
                place: p as u32,
            });
        }
    }
    Ok(())
}

// The first node with more copies than its usable capacity takes or its ceiling allows.
fn nodes_fault(c: Cluster, cells: &[u32], size: u32) -> Result<(), Fault>
    requires { (fault_of c ≡ 0) × (layout_cells ≤ length cells.now) × ((rows_fault (topology c) cells.now).refusal ≡ 0) }
    ensures { checked_as result ≡ nodes_fault (topology c) (rows_in (partitions (topology c)) cells.now) size }
{
    let counts = copies::copies(c, cells);
    for b in 0..c.count {
        let node = c.nodes[b];
        if !node.takes(counts[b], size) {
            return Err(Fault {
                refusal: Refusal::Capacity,
                place: node.id,
            });
        }
    }
    Ok(())
}

// The first fault of an assignment, in the order of the paper; the assignment is not written, and no cell after a whole layout is looked at.
pub fn check(c: Cluster, assignment: &[u32], size: u32) -> Result<(), Fault>
    ensures { checked_as result ≡ check_of c assignment.now size }
{
    if assignment.len() < Cluster::CELLS {
        return Err(Refusal::Buffer.into());
    }
    cluster_fault(c, size)?;
    rows_fault(c, assignment)?;
    nodes_fault(c, assignment, size)
}
