// The loss of given nodes: a box, the boxes of a house, or any others.
ghost use Rattle.std.specs.Prelude.{◌≡◌, length};
ghost use Rattle.sets.specs.ModelBits.{mask_of};
ghost use Rattle.cluster.specs.Terms.{topology};
ghost use Rattle.incidence.specs.ModelIncidence.{bits_of};
ghost use Rattle.layouts.specs.TermsCheck.{check_of};
ghost use Rattle.loss.specs.TermsLoss.{loss_of};
ghost use Rattle.loss.specs.TermsLossAnswer.{layout_in, given_loss, lost_as};

use super::rows;
use cluster::Cluster;
use incidence::zones;
use layouts::check::{self, Fault};

// The nodes whose ids are given, as a set. Ids that no node has are left out.
fn set_of(c: Cluster, given: &[u32]) -> u32
    ensures { result ≡ mask_of (bits_of (topology c).nodes given.now) (length (topology c).nodes) }
{
    let n = zones::used(c);
    let all = masks::ids_of(c);
    let ids = &all[..n];
    let mut set = 0;
    for (b, id) in ids.iter().enumerate() {
        if given.contains(id) {
            set = sets::with(set, b as u32);
        }
    }
    set
}

// How many partitions are lost with given nodes.
fn lost_of(c: Cluster, assignment: &[u32], given: &[u32]) -> u32
    requires { (check_of c assignment.now 1).refusal ≡ 0 }
    ensures { result ≡ loss_of (layout_in c assignment.now) given.now }
{
    let partitions = cluster::partitions(c.bits);
    let set = set_of(c, given);
    let mut sets = [0u32; Cluster::PARTITIONS];
    masks::read_masks(c, assignment, partitions, &mut sets);
    let lost = rows::lost_rows(&sets, set);
    let past = rows::past(partitions);
    lost - past
}

// How many partitions the loss of given nodes costs, whichever ids are given and in which order: an id of no node costs nothing.
pub fn loss_of(c: Cluster, assignment: &[u32], given: &[u32]) -> Result<u32, Fault>
    ensures { lost_as result ≡ given_loss c assignment.now given.now }
{
    check::check(c, assignment, 1)?;
    Ok(lost_of(c, assignment, given))
}
