// The rows of a cluster that has a layout: the run from the dealt beginning, ordered where it is finished.
#![tactic(auto)]

ghost use Rattle.std.specs.Prelude.{◌≡◌, ◌-◌, ◌≤◌, length, replicate};
ghost use Rattle.cluster.specs.Terms.{buffer_rows, topology, partitions, fault_of};
ghost use Rattle.cluster.specs.TermsReading.{Fits32};
ghost use Rattle.sets.specs.ModelBits.{bits_at};
ghost use Rattle.exchange.proofs.Agreeing.{SameLayout};
ghost use Rattle.sizing.specs.ModelSizing.{nodes_of, size_of};
ghost use Rattle.unions.specs.ModelUnions.{kept_cells};
ghost use Rattle.planning.specs.ModelPlan.{start_rows, ran_from, answer_bits};
ghost use Rattle.planning.proofs.Grounds.{GoodRows};

use cluster::Cluster;
use incidence::zones;
use ordering::Ended;

// The run from the beginning dealt at the size, ordered where it is finished. `before` holds the former rows as masks; `kept` is room for the run.
pub fn improved(
    c: Cluster,
    size: u32,
    before: &[u32],
    allowance: u32,
    rows: &mut [u32],
    kept: &mut [u32],
) -> Ended
    requires { (fault_of c ≡ 0) × (size ≡ size_of (topology c)) × (1 ≤ size) × (partitions (topology c) ≤ length before.now)
        × (rows.old ≡ replicate buffer_rows 0) × (length kept.old ≡ kept_cells) }
    ensures { (result.finished ≡ (ran_from (topology c) (size_of (topology c)) before.now (start_rows (topology c)) allowance).finished)
        × (result.improvements ≡ (ran_from (topology c) (size_of (topology c)) before.now (start_rows (topology c)) allowance).steps)
        × GoodRows (topology c) rows.new × SameLayout (partitions (topology c)) (nodes_of (topology c)) (bits_at rows.new)
        (answer_bits (topology c) (size_of (topology c)) before.now result.finished
        (ran_from (topology c) (size_of (topology c)) before.now (start_rows (topology c)) allowance).state.rows)
        × Fits32 (topology c) }
{
    let partitions = cluster::partitions(c.bits);
    let count = c.count;
    sizing::deal(c, size, rows);
    let zones = zones::zones(c);
    let mates = caps::mates(zones, count);
    let caps = caps::caps(c, size);
    ordering::run(
        rows,
        before,
        partitions,
        &mates,
        &caps,
        count as u32,
        c.redundancy,
        allowance,
        kept,
    )
}
