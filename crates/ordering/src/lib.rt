// The run of improvements, and the ordering where it is finished.
#![tactic(auto)]

ghost use Rattle.std.specs.Prelude.{◌≡◌, true, false, ℕ, ◌≤◌, length};
ghost use Rattle.cluster.specs.Terms.{buffer_rows};
ghost use Rattle.exchange.specs.ModelRow.{weigh};
ghost use Rattle.exchange.proofs.Agreeing.{SameLayout};
ghost use Rattle.ties.specs.ModelOrder.{first_of};
ghost use Rattle.sets.specs.ModelBits.{bits_at};
ghost use Rattle.unions.specs.ModelUnions.{kept_cells};
ghost use Rattle.improve.specs.ModelImprove.{ran_in};
ghost use Rattle.improve.proofs.Ground.{Ground, Good};

use cluster::Cluster;
use swaps::instance::Instance;

// How a run ended: whether nothing is left to improve, and how many improvements were made.
#[derive(Clone, Copy)]
pub struct Ended {
    pub finished: bool,
    pub improvements: u32,
}

// The run from the rows in hand, with an allowance of improvements, and the ordering where it is finished. `kept` is room for what the rows allow; it may
// hold anything.
pub fn run(
    rows: &mut [u32],
    former: &[u32],
    partitions: usize,
    mates: &[u32],
    caps: &[u32],
    nodes: u32,
    z: u32,
    allowance: u32,
    kept: &mut [u32],
) -> Ended
    requires { (partitions ≤ buffer_rows) × (partitions ≤ length rows.old) × (length kept.old ≡ kept_cells) }
    ensures { (result.finished
        ≡ (ran_in former.now partitions mates.now caps.now nodes z allowance rows.old).finished)
        × (result.improvements
        ≡ (ran_in former.now partitions mates.now caps.now nodes z allowance rows.old).steps)
        × (length rows.new ≡ length rows.old)
        × (result.finished ≡ false → rows.new
        ≡ (ran_in former.now partitions mates.now caps.now nodes z allowance rows.old).state.rows)
        × (result.finished ≡ true → (R : ℕ) (zone cap : ℕ → ℕ)
        → Ground partitions nodes R z zone cap former.now mates.now caps.now → Good partitions nodes R z zone cap rows.old
        → Good partitions nodes R z zone cap rows.new × SameLayout partitions nodes (bits_at rows.new)
        (first_of partitions nodes R z zone cap (bits_at former.now) (weigh partitions nodes (bits_at former.now)
        (bits_at (ran_in former.now partitions mates.now caps.now nodes z allowance rows.old).state.rows)))) }
{
    let mut tight = [0u32; Cluster::PARTITIONS];
    swaps::tighten(mates, z, rows, partitions, &mut tight);
    let mut held = [0u32; holders::CELLS];
    holders::fill(rows, partitions, &mut held);
    let mut had = [0u32; holders::CELLS];
    holders::fill(former, partitions, &mut had);
    let given = Instance {
        former,
        had: &had,
        partitions,
        mates,
        caps,
        z,
    };
    let ran = runs::run(rows, &mut tight, &mut held, &given, nodes, allowance, kept);
    let improvements = ran.improvements;
    if !ran.finished {
        return Ended {
            finished: false,
            improvements,
        };
    }
    firsts::order(rows, &mut tight, &mut held, &given, nodes, ran.stale, kept);
    Ended {
        finished: true,
        improvements,
    }
}
