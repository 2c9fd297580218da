// Planning: the size, the beginning, the run of improvements, and the plan.
#![tactic(auto)]

ghost use Rattle.std.specs.Prelude.{◌≡◌, length};
ghost use Rattle.cluster.specs.Terms.{topology, partitions, rows_in};
ghost use Rattle.planner.specs.TermsPlan.{unusable, planned_of, assignment_after, scratch_after, planned_as, Owed};

use cluster::Cluster;
use cluster::refusal::Refusal;
use settle::Plan;

mod refuse;
pub mod settle;

// The plan of a cluster: the largest size, and the first of the layouts of that size that send the fewest copies, or one that sends as few as the
// allowance of improvements brings it to. The assignment takes the layout. The run works in the scratch, all of which is zeroed at the end.
pub fn plan(
    c: Cluster,
    former: &[u32],
    allowance: u16,
    assignment: &mut [u32],
    scratch: &mut [u32],
) -> Result<Plan, Refusal>
    ensures { (planned_as result ≡ planned_of c former.now allowance (length assignment.old) (length scratch.old))
        × (assignment.new ≡ assignment_after c former.now allowance assignment.old (length scratch.old))
        × (scratch.new ≡ scratch_after c former.now (length assignment.old) scratch.old)
        × (unusable c former.now (length assignment.old) (length scratch.old) ≡ 0
        → Owed (topology c) (rows_in (partitions (topology c)) former.now) (planned_as result).refusal) }
{
    refuse::unusable(c, former, assignment.len(), scratch.len())?;
    let size = sizing::size(c);
    if size == 0 {
        clearing::clear(scratch);
        return Err(Refusal::NoLayout);
    }
    let plan = settle::settle(
        c,
        former,
        allowance as u32,
        size,
        assignment,
        &mut scratch[..graph::KEPT],
    );
    clearing::clear(scratch);
    Ok(plan)
}
