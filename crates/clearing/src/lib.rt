// What planning leaves: clear scratch.
#![tactic(auto)]

ghost use Rattle.std.specs.Prelude.{◌≡◌, ◌++◌, ◌≤◌, length, drop, replicate};
ghost use Rattle.cluster.specs.Terms.{scratch_cells};

use cluster::Cluster;

// Zeroes the scratch, and leaves what lies beyond.
pub fn clear(scratch: &mut [u32])
    requires { scratch_cells ≤ length scratch.old }
    ensures { scratch.new ≡ replicate scratch_cells 0 ++ drop scratch_cells scratch.old }
{
    scratch[..Cluster::SCRATCH].fill(0);
}
