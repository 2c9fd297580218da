// How many rows of a layout are lost with a set of nodes: a row, itself a set of nodes, is lost where all its nodes are.
ghost use Rattle.std.specs.Prelude.{◌≡◌, ◌-◌, length};
ghost use Rattle.cluster.specs.Terms.{buffer_rows};
ghost use Rattle.loss.specs.ModelSearch.{lost_rows};

use cluster::Cluster;

// How many rows of a buffer have all their nodes in the set. It goes over a whole buffer, so that the compiler knows how far; the rows past the
// partitions, which are empty and lost with every set, are taken off by who asks.
pub fn lost_rows(rows: &[u32], set: u32) -> u32
    requires { length rows.now ≡ buffer_rows }
    ensures { result ≡ lost_rows rows.now set }
{
    let mut lost = 0;
    for p in 0..Cluster::PARTITIONS {
        let left = sets::difference(rows[p], set);
        if left == 0 {
            lost += 1;
        }
    }
    lost
}

// The rows past the partitions.
pub fn past(partitions: usize) -> u32
    ensures { result ≡ buffer_rows - partitions }
{
    Cluster::PARTITIONS.saturating_sub(partitions) as u32
}
