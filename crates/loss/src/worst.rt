// The worst loss: how many partitions the loss of so many nodes can cost, and the first set of nodes that costs so many.
ghost use Rattle.std.specs.Prelude.{◌≡◌, get_or};
ghost use Rattle.sums.specs.TermsSums.{tab};
ghost use Rattle.sets.specs.ModelBits.{bit};
ghost use Rattle.cluster.specs.Terms.{topology};
ghost use Rattle.incidence.specs.ModelIncidence.{ids_where};
ghost use Rattle.layouts.specs.TermsCheck.{checked_as};
ghost use Rattle.loss.specs.TermsLoss.{most_lost, loss_of};
ghost use Rattle.loss.specs.TermsLossAnswer.{layout_in, loss_fault, worst_in, worst_loss, worst_as, LossOwed};

use super::search::Found;
use super::{rows, search};
use cluster::Cluster;
use cluster::refusal::Refusal;
use incidence::zones;
use layouts::check::{self, Fault};

// The most nodes of which the loss can be asked.
pub const MOST: usize = 4;

// A worst loss: the number of partitions that are lost, and the ids of the nodes, rising, then zeros.
#[derive(Clone, Copy)]
pub struct Worst {
    pub lost: u32,
    pub nodes: [u32; MOST],
}

// The first fault, in the order of check, with the number judged where the cluster's numbers are.
fn fault(c: Cluster, assignment: &[u32], number: u32) -> Result<(), Fault>
    ensures { checked_as result ≡ loss_fault c assignment.now number }
{
    if assignment.len() < Cluster::CELLS {
        return Err(Refusal::Buffer.into());
    }
    if Cluster::NODES < c.count {
        return Err(Refusal::Nodes.into());
    }
    if MOST < number as usize {
        return Err(Refusal::Range.into());
    }
    if c.count < number as usize {
        return Err(Refusal::Range.into());
    }
    check::check(c, assignment, 1)
}

// The ids of the first nodes of a set, rising, then zeros.
fn ids_of_set(c: Cluster, set: u32) -> [u32; MOST]
    ensures { result ≡ tab (λ j. get_or (ids_where (topology c).nodes (bit set)) j 0) most_lost }
{
    let n = zones::used(c);
    let all = masks::ids_of(c);
    let mut row = [0u32; Cluster::ROW];
    mask_cells::write_row(&all[..n], set, &mut row, 0);
    [row[0], row[1], row[2], row[3]]
}

// The worst set of so many nodes, with what it costs.
fn worst_of(c: Cluster, assignment: &[u32], number: u32) -> Found
    requires { (loss_fault c assignment.now number).refusal ≡ 0 }
    ensures { (result.lost ≡ loss_of (layout_in c assignment.now) (worst_in c assignment.now number))
        × (ids_where (topology c).nodes (bit result.set) ≡ worst_in c assignment.now number) }
{
    let partitions = cluster::partitions(c.bits);
    let n = zones::used(c);
    let mut sets = [0u32; Cluster::PARTITIONS];
    masks::read_masks(c, assignment, partitions, &mut sets);
    let found = search::worst(&sets, n as u32, number);
    let past = rows::past(partitions);
    Found {
        lost: found.lost - past,
        set: found.set,
    }
}

// The worst loss of so many nodes.
pub fn worst_loss(c: Cluster, assignment: &[u32], number: u32) -> Result<Worst, Fault>
    ensures { (worst_as result ≡ worst_loss c assignment.now number) × LossOwed c assignment.now number (worst_as result) }
{
    fault(c, assignment, number)?;
    let found = worst_of(c, assignment, number);
    let nodes = ids_of_set(c, found.set);
    Ok(Worst {
        lost: found.lost,
        nodes,
    })
}
