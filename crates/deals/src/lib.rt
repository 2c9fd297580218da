// The copies dealt along the line of them all: which node's copies reach a partition.
#![tactic(auto)]

ghost use Rattle.std.specs.Prelude.{◌≡◌, ◌≤◌, ◌-◌, ◌+◌, length, get_or};
ghost use Rattle.sets.specs.ModelBits.{mask_of, with_of};
ghost use Rattle.cells.specs.ModelCells.{put};
ghost use Rattle.cluster.specs.Terms.{most_nodes, buffer_rows};
ghost use Rattle.dealing.specs.ModelDeal.{among};
ghost use Rattle.incidence.specs.ModelIncidence.{cell};
ghost use Rattle.tallies.specs.ModelTallies.{Below};

use cluster::Cluster;

// Node b joins the rows `from` .. `to` - 1.
fn join(rows: &mut [u32], b: u32, from: usize, to: usize)
    requires { to ≤ length rows.old }
    ensures { rows.new ≡ put from (λ j. with_of (get_or rows.old (from + j) 0) b) (to - from) rows.old }
{
    let own = sets::with(0, b);
    for p in from..to {
        rows[p] = sets::union(rows[p], own);
    }
}

// Deals the copies: each of the first P cells becomes the row of its partition. A node's copies go to the partitions from its start on, and,
// where these end before the copies do, to the first ones.
pub fn deal(
    rows: &mut [u32],
    starts: &[u32; Cluster::NODES],
    copies: &[u32; Cluster::NODES],
    n: usize,
    partitions: u32,
)
    requires { (n ≤ most_nodes) × (partitions ≤ buffer_rows) × (partitions ≤ length rows.old)
        × Below partitions n starts.now }
    ensures { rows.new
        ≡ put 0 (λ p. mask_of (λ b. among partitions (cell starts.now b) (cell copies.now b) p) n) partitions
        rows.old }
{
    rows[..partitions as usize].fill(0);
    for b in 0..n {
        let start = starts[b];
        let end = start + partitions.min(copies[b]);
        join(rows, b as u32, start as usize, end.min(partitions) as usize);
        join(rows, b as u32, 0, end.saturating_sub(partitions) as usize);
    }
}
