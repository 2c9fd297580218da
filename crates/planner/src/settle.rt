// The plan of a cluster that has a layout: the run from the dealt beginning, its cells, and how many copies it sends.
ghost use Rattle.std.specs.Prelude.{◌≡◌, true, Ok, ◌++◌, ◌-◌, ◌≤◌, length, drop};
ghost use Rattle.cluster.specs.Terms.{layout_cells, topology, partitions, cells_of, fault_of};
ghost use Rattle.masks.specs.ModelMasks.{rows_formed};
ghost use Rattle.cluster.specs.TermsReading.{Fits32};
ghost use Rattle.sizing.specs.ModelSizing.{size_of};
ghost use Rattle.unions.specs.ModelUnions.{kept_cells};
ghost use Rattle.planner.specs.TermsPlan.{plan_in, planned_as, answered};

use cluster::Cluster;

// The numbers of a plan: its size, the copies that it sends, whether nothing is left to improve, and how many improvements led to it.
#[derive(Clone, Copy)]
pub struct Plan {
    pub size: u32,
    pub sent: u32,
    pub finished: bool,
    pub improvements: u32,
}

// The plan of a cluster that has a layout; `kept` is room for the run.
pub(crate) fn settle(
    c: Cluster,
    former: &[u32],
    allowance: u32,
    size: u32,
    assignment: &mut [u32],
    kept: &mut [u32],
) -> Plan
    requires { (fault_of c ≡ 0) × (layout_cells ≤ length assignment.old) × (rows_formed former.now (partitions (topology c)) ≡ true)
        × (size ≡ size_of (topology c)) × (1 ≤ size) × (length kept.old ≡ kept_cells) }
    ensures { (planned_as (Ok result) ≡ answered (plan_in c former.now allowance))
        × (assignment.new ≡ cells_of (plan_in c former.now allowance).layout ++ drop layout_cells assignment.old)
        × Fits32 (topology c) }
{
    let partitions = cluster::partitions(c.bits);
    let mut before = [0u32; Cluster::PARTITIONS];
    masks::read_masks(c, former, partitions, &mut before);
    let mut rows = [0u32; Cluster::PARTITIONS];
    let ended = nearest::improved(c, size, &before, allowance, &mut rows, kept);
    mask_cells::write_cells(c, &rows, partitions, assignment);
    let sent = agreement::sent(c.replication, &before, &rows, partitions);
    Plan {
        size,
        sent,
        finished: ended.finished,
        improvements: ended.improvements,
    }
}
