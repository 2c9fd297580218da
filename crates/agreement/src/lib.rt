// The agreement of rows with the former rows: how many pairs of a partition and a node they share, and how many copies are sent for the others.
#![tactic(auto)]

ghost use Rattle.std.specs.Prelude.{◌≡◌, ◌-◌, ◌*◌, ◌≤◌, length};
ghost use Rattle.cluster.specs.Terms.{buffer_rows, most_copies};
ghost use Rattle.agreement.specs.ModelAgreement.{agreement_in, shared_in};

use cluster::Cluster;

mod sum;

// How many pairs the rows share with the former rows.
pub fn agreement(rows: &[u32], former: &[u32], partitions: usize) -> u32
    ensures { result ≡ shared_in rows.now former.now partitions }
{
    if Cluster::PARTITIONS < partitions {
        return 0;
    }
    if rows.len() < partitions {
        return 0;
    }
    if former.len() < partitions {
        return 0;
    }
    sum::agreement_of(rows, former, partitions)
}

// What the layout of the rows sends: all its copies but those that the former layout has.
pub fn sent(replication: u32, before: &[u32], rows: &[u32], partitions: usize) -> u32
    requires { (replication ≤ most_copies) × (partitions ≤ buffer_rows) × (partitions ≤ length before.now) × (partitions ≤ length rows.now)
        × (agreement_in rows.now before.now partitions ≤ replication * partitions) }
    ensures { result ≡ replication * partitions - agreement_in rows.now before.now partitions }
{
    let shared = agreement(rows, before, partitions);
    replication * (partitions as u32) - shared
}
