// What planning cannot use: short buffers, a cluster with a fault, ill formed former rows.
ghost use Rattle.std.specs.Prelude.{◌≡◌};
ghost use Rattle.cluster.specs.TermsRefusal.{refusal_of};
ghost use Rattle.planner.specs.TermsPlan.{unusable};

use cluster::Cluster;
use cluster::refusal::Refusal;

// Refuses what is refused but a cluster without layout: 8, 6, 4, 5.
pub fn unusable(
    c: Cluster,
    former: &[u32],
    assignment: usize,
    scratch: usize,
) -> Result<(), Refusal>
    ensures { refusal_of result ≡ unusable c former.now assignment scratch }
{
    if former.len() < Cluster::CELLS {
        return Err(Refusal::Buffer);
    }
    if assignment < Cluster::CELLS {
        return Err(Refusal::Buffer);
    }
    if scratch < Cluster::SCRATCH {
        return Err(Refusal::Buffer);
    }
    c.accept()?;
    if masks::rows_formed(former, cluster::partitions(c.bits)) {
        Ok(())
    } else {
        Err(Refusal::Order)
    }
}
