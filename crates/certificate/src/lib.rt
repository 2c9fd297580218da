// Certificates: a price for each node, by which anybody can check with sums alone that a layout in hand has the largest size and sends the fewest copies.
#![tactic(auto)]

ghost use Rattle.std.specs.Prelude.{◌≡◌};
ghost use Rattle.cluster.specs.Terms.{topology};
ghost use Rattle.layouts.specs.TermsCheck.{checked_as};
ghost use Rattle.certificate.specs.TermsCertify.{certify_fault, former_in, new_in, certified_of, certified_as, Owed};

use cluster::Cluster;
use cluster::refusal::Refusal;
use layouts::check::{self, Fault};

mod pricing;

// The first fault, in the order of the request.
fn fault(c: Cluster, former: &[u32], assignment: &[u32], size: u32) -> Result<(), Fault>
    ensures { checked_as result ≡ certify_fault c former.now assignment.now size }
{
    if former.len() < Cluster::CELLS {
        return Err(Refusal::Buffer.into());
    }
    check::check(c, assignment, size)?;
    if !masks::rows_formed(former, cluster::partitions(c.bits)) {
        return Err(Refusal::Order.into());
    }
    Ok(())
}

// The certificate of a layout in hand at a size, whoever planned it: a price for each node; or why there is none.
pub fn certify(
    c: Cluster,
    former: &[u32],
    assignment: &[u32],
    size: u32,
) -> Result<[u32; Cluster::NODES], Fault>
    ensures { (certified_as result ≡ certified_of c former.now assignment.now size)
        × ((certify_fault c former.now assignment.now size).refusal ≡ 0
        → Owed (topology c) (former_in c former.now) (new_in c assignment.now) size (certified_as result)) }
{
    fault(c, former, assignment, size)?;
    let caps = caps::caps(c, size);
    if size < sizing::size(c) {
        return Err(Refusal::Larger.into());
    }
    pricing::price(c, former, assignment, caps)
}
