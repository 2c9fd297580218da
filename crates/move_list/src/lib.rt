// The list of moves from a former layout to a new one, and its count.
#![tactic(auto)]

ghost use Rattle.std.specs.Prelude.{◌≡◌, List, ◌++◌, ◌*◌, ◌≤◌, ◌<◌, OnOk, length, drop};
ghost use Rattle.sums.specs.TermsSums.{every_to};
ghost use Rattle.cluster.specs.Terms.{most_nodes, buffer_rows, wide_row_cells, wide_cells, topology, ids_of, row_of, formed};
ghost use Rattle.cluster.specs.declared.Node.{Node};
ghost use Rattle.masks.specs.ModelMasks.{row_mask};
ghost use Rattle.moves.specs.TermsMoves.{step_width, step_cells};
ghost use Rattle.layouts.specs.TermsCheck.{checked_as};
ghost use Rattle.move_list.specs.ModelMoveRows.{wide_mask};
ghost use Rattle.move_list.specs.TermsMoveList.{moves_fault, former_in, moves_in, count_moves, list_moves, cells_listed, listed_as, MovesOwed};

use cluster::Cluster;
use cluster::refusal::Refusal;
use incidence::zones;
use layouts::check::{self, Fault};

// Whether each of the first rows of sixteen cells is rising ids followed by zeros.
fn rows_formed(former: &[u32], partitions: usize) -> bool
    requires { (partitions ≤ buffer_rows) × (wide_cells ≤ length former.now) }
    ensures { result ≡ every_to partitions (λ p. formed (row_of wide_row_cells former.now p)) }
{
    for p in 0..partitions {
        if !cell_rows::wide_row_is_formed(former, p) {
            return false;
        }
    }
    true
}

// The first fault, in the order of the request.
fn fault(c: Cluster, former: &[u32], assignment: &[u32]) -> Result<(), Fault>
    ensures { checked_as result ≡ moves_fault c former.now assignment.now }
{
    if former.len() < Cluster::WIDE_CELLS {
        return Err(Refusal::Buffer.into());
    }
    check::check(c, assignment, 1)?;
    if !rows_formed(former, cluster::partitions(c.bits)) {
        return Err(Refusal::Order.into());
    }
    Ok(())
}

// What is held of a partition, and its new row, as sets of the nodes whose ids are given.
fn row_sets(ids: &[u32], former: &[u32], assignment: &[u32], partition: usize) -> (u32, u32)
    requires { (length ids.now ≤ most_nodes) × (partition < buffer_rows) × (wide_cells ≤ length former.now) }
    ensures { (ns : List Node) → ids.now ≡ ids_of ns
        → (result.0 ≡ wide_mask ns former.now partition) × (result.1 ≡ row_mask ns assignment.now partition) }
{
    let old = masks::wide_mask_of(ids, former, partition);
    let new = masks::mask_of(ids, assignment, partition);
    (old, new)
}

// How many steps lead from the one layout to the other: row by row, no list is made.
fn count_steps(c: Cluster, former: &[u32], assignment: &[u32]) -> u32
    requires { (moves_fault c former.now assignment.now).refusal ≡ 0 }
    ensures { result ≡ length (moves_in c former.now assignment.now) }
{
    let partitions = cluster::partitions(c.bits);
    let n = zones::used(c);
    let all = masks::ids_of(c);
    let ids = &all[..n];
    let mut steps = 0;
    for p in 0..partitions {
        let (old, new) = row_sets(ids, former, assignment, p);
        steps += step_cells::count(old, new);
    }
    steps
}

// The steps into the first cells, row by row.
fn put_steps(c: Cluster, former: &[u32], assignment: &[u32], cells: &mut [u32])
    requires { ((moves_fault c former.now assignment.now).refusal ≡ 0) × (step_width * length (moves_in c former.now assignment.now) ≤ length cells.old) }
    ensures { let moves = moves_in c former.now assignment.now in
        cells.new ≡ step_cells (topology c) (former_in c former.now) moves ++ drop (step_width * length moves) cells.old }
{
    let partitions = cluster::partitions(c.bits);
    let n = zones::used(c);
    let all = masks::ids_of(c);
    let ids = &all[..n];
    let mut at = 0;
    for p in 0..partitions {
        let (old, new) = row_sets(ids, former, assignment, p);
        at = step_cells::put_row(ids, p as u32, old, new, cells, at);
    }
}

// The number of steps of the list, without making it. Former rows have sixteen cells, and those from the number of partitions on are not looked at.
pub fn count(c: Cluster, former: &[u32], assignment: &[u32]) -> Result<u32, Fault>
    ensures { (listed_as result ≡ count_moves c former.now assignment.now)
        × OnOk result (MovesOwed c former.now assignment.now) }
{
    fault(c, former, assignment)?;
    Ok(count_steps(c, former, assignment))
}

// The list of moves into the first cells, four to a step: kind, partition, node, source. No cell is written where it is refused, none past the steps
// where it is made.
pub fn list(c: Cluster, former: &[u32], assignment: &[u32], cells: &mut [u32]) -> Result<u32, Fault>
    ensures { (listed_as result ≡ list_moves c former.now assignment.now (length cells.old))
        × (cells.new ≡ cells_listed c former.now assignment.now cells.old)
        × OnOk result (MovesOwed c former.now assignment.now) }
{
    let steps = count(c, former, assignment)?;
    if cells.len() < step_cells::STEP * steps as usize {
        return Err(Refusal::Buffer.into());
    }
    put_steps(c, former, assignment, cells);
    Ok(steps)
}
