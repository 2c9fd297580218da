// The figures of a layout in hand: copies by node and by zone, and the size to hope for.
#![tactic(auto)]

ghost use Rattle.std.specs.Prelude.{◌≡◌, ℕ, ◌≤◌, ◌<◌, length, get_or};
ghost use Rattle.sums.specs.TermsSums.{sum_to};
ghost use Rattle.cells.specs.ModelCells.{put};
ghost use Rattle.cluster.specs.Terms.{most_nodes, buffer_rows, layout_cells, topology, partitions, node_at, usable, rows_in, fault_of};
ghost use Rattle.cluster.specs.TermsReading.{figure_cells};
ghost use Rattle.layouts.specs.TermsCheck.{rows_fault};
ghost use Rattle.figures.specs.ModelZones.{zone_sum};
ghost use Rattle.figures.specs.TermsFigures.{figures_made, hope_of, figures_of, figures_in, figured_as};

use cluster::Cluster;
use cluster::refusal::Refusal;
use layouts::check::{self, Fault};

// What of the disks of all nodes in use may be filled.
#[tactic(auto, using(cluster::proofs::Accepting::few_nodes))]
fn total_usable(c: Cluster) -> u64
    requires { fault_of c ≡ 0 }
    ensures { result ≡ sum_to (length (topology c).nodes) (λ b. usable (node_at (topology c) b)) }
{
    let mut total = 0;
    for node in &c.nodes[..c.count] {
        let usable = node.usable();
        total += usable as u64;
    }
    total
}

// The size to hope for.
fn hope(c: Cluster) -> u64
    requires { fault_of c ≡ 0 }
    ensures { result ≡ hope_of (topology c) }
{
    let copies = (c.replication as u64) * (cluster::partitions(c.bits) as u64);
    total_usable(c) / copies
}

// The copies in the zone of node b; 0 where slot b is not in use.
fn zone_copies(c: Cluster, counts: [u32; Cluster::NODES], b: usize) -> u32
    requires { (c.count ≤ most_nodes) × ((x : ℕ) → x < most_nodes → get_or counts x 0 ≤ buffer_rows) }
    ensures { result ≡ zone_sum (topology c) counts b }
{
    let n = c.count;
    if n <= b {
        return 0;
    }
    let zone = c.nodes[b].zone;
    let mut total = 0;
    for x in 0..n {
        let more = if c.nodes[x].zone == zone {
            counts[x]
        } else {
            0
        };
        total += more;
    }
    total
}

// The copies of the nodes' zones go into the second half.
fn put_zones(c: Cluster, counts: [u32; Cluster::NODES], cells: &mut [u32])
    requires { (c.count ≤ most_nodes) × ((x : ℕ) → x < most_nodes → get_or counts x 0 ≤ buffer_rows) × (figure_cells ≤ length cells.old) }
    ensures { cells.new ≡ put most_nodes (zone_sum (topology c) counts) most_nodes cells.old }
{
    for b in 0..Cluster::NODES {
        cells[Cluster::NODES + b] = zone_copies(c, counts, b);
    }
}

// The figures of the first P rows go into the cells: the copies of the nodes into the first half, those of their zones into the second.
fn put_figures(c: Cluster, assignment: &[u32], cells: &mut [u32])
    requires { (fault_of c ≡ 0) × (layout_cells ≤ length assignment.now) × ((rows_fault (topology c) assignment.now).refusal ≡ 0) × (figure_cells ≤ length cells.old) }
    ensures { cells.new ≡ figures_made (topology c) (rows_in (partitions (topology c)) assignment.now) cells.old }
{
    let counts = copies::copies(c, assignment);
    cells::copy(&counts, cells);
    put_zones(c, counts, cells);
}

// The figures of an assignment that check passes, and the size to hope for; it and the cells after those of the figures are kept.
pub fn figures(c: Cluster, assignment: &[u32], size: u32, cells: &mut [u32]) -> Result<u64, Fault>
    ensures answer { figured_as result ≡ figures_of c assignment.now size cells.old }
    ensures cells { cells.new ≡ figures_in c assignment.now size cells.old }
{
    if cells.len() < Cluster::FIGURES {
        return Err(Refusal::Buffer.into());
    }
    check::check(c, assignment, size)?;
    put_figures(c, assignment, cells);
    Ok(hope(c))
}
