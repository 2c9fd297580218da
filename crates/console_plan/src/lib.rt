// Plans, made through C: the function answers its refusal, 0 for none; its other numbers go into the lent cells `answer`, and an `answer` that is too
// short is refused before anything is touched.
#![tactic(auto)]

ghost use Rattle.std.specs.Prelude.{◌≡◌, length};
ghost use Rattle.cluster.specs.Terms.{topology, partitions, rows_in};
ghost use Rattle.planner.specs.TermsPlan.{planned_as, unusable, Owed};
ghost use Rattle.answers.specs.TermsAnswers.{unless_short, answer_after, reading};
ghost use Rattle.answers.specs.TermsStopped.{told_of};
ghost use Rattle.console_plan.specs.TermsConsolePlan.{former_in, refusal_in, plan_cells, planned, planned_assignment, planned_scratch, planned_numbers, PlanOwed};

use answers::stopped::{Stopped, Told};
use cluster::Cluster;
use cluster::refusal::Refusal;
use planner::settle::Plan;

pub mod certify;

// The cells of the answer: byte (two cells), size, sent, verdict, improvements.
const ANSWER: usize = 6;

// Reading's refusal, or else the plan of the cluster read.
fn plan_of_record(
    bytes: &[u8],
    allowance: u16,
    assignment: &mut [u32],
    scratch: &mut [u32],
) -> Result<Plan, Stopped>
    ensures { let s = bytes.now in let cells = assignment.old in let rest = scratch.old in
        let read = reading s in let made = planned_as (refusal_in result) in
        (made ≡ planned read (former_in s) allowance (length cells) (length rest))
        × ((told_of result).byte ≡ read.byte)
        × (assignment.new ≡ planned_assignment read (former_in s) allowance cells (length rest))
        × (scratch.new ≡ planned_scratch read (former_in s) (length cells) rest)
        × (read.refusal ≡ 0 → unusable read.cluster (former_in s) (length cells) (length rest) ≡ 0
        → Owed (topology read.cluster) (rows_in (partitions (topology read.cluster)) (former_in s)) made.refusal) }
{
    let mut former = [0u32; Cluster::CELLS];
    let c = cluster_record::read_cluster(bytes, &mut former)?;
    // No refusal of planning has a place.
    match planner::plan(c, &former, allowance, assignment, scratch) {
        Ok(plan) => Ok(plan),
        Err(refusal) => Err(Stopped {
            refusal,
            byte: 0,
            place: 0,
        }),
    }
}

// Plans the cluster of a record, whose former layout the record carries.
#[unsafe(no_mangle)]
pub extern "C" fn dezghuri_plan(
    bytes: &[u8],
    allowance: u16,
    assignment: &mut [u32],
    scratch: &mut [u32],
    answer: &mut [u32],
) -> u32
    ensures { let s = bytes.now in let cells = assignment.old in let rest = scratch.old in let lent = answer.old in
        let made = planned (reading s) (former_in s) allowance (length cells) (length rest) in
        (result ≡ unless_short plan_cells lent 8 made.refusal)
        × (assignment.new ≡ unless_short plan_cells lent cells (planned_assignment (reading s) (former_in s) allowance cells (length rest)))
        × (scratch.new ≡ unless_short plan_cells lent rest (planned_scratch (reading s) (former_in s) (length cells) rest))
        × (answer.new ≡ answer_after plan_cells lent (planned_numbers (reading s) made))
        × PlanOwed s (length cells) (length rest) (length lent) result }
{
    if answer.len() < ANSWER {
        return Refusal::Buffer.into();
    }
    let found = plan_of_record(bytes, allowance, assignment, scratch);
    let told = Told::of(&found);
    let plan = found.unwrap_or(Plan {
        size: 0,
        sent: 0,
        finished: false,
        improvements: 0,
    });
    let numbers = [
        plan.size,
        plan.sent,
        plan.finished as u32,
        plan.improvements,
    ];
    answers::put_after(told.byte, &numbers, answer);
    told.refusal
}
