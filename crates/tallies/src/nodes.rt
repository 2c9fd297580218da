// What is read of the nodes in use.
ghost use Rattle.std.specs.Prelude.{◌≡◌, ◌≤◌, ◌/◌, min};
ghost use Rattle.sums.specs.ModelSums.{is};
ghost use Rattle.sets.specs.ModelBits.{mask_of};
ghost use Rattle.cluster.specs.Terms.{most_nodes};
ghost use Rattle.incidence.specs.ModelIncidence.{cell};

use cluster::Cluster;

// The most copies that a node may hold at a size, none at the size 0; at most `most`.
pub fn cap(usable: u32, most: u32, size: u32) -> u32
    ensures { result ≡ min most (usable / size) }
{
    if size == 0 {
        return 0;
    }
    most.min(usable / size)
}

// The set of the first n nodes whose zone is z.
pub fn of_zone(zones: &[u32; Cluster::NODES], n: usize, z: u32) -> u32
    requires { n ≤ most_nodes }
    ensures { result ≡ mask_of (λ b. is (cell zones.now b) z) n }
{
    let mut mask = 0;
    for b in 0..n {
        if zones[b] == z {
            mask = sets::with(mask, b as u32);
        }
    }
    mask
}
