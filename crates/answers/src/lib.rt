// What the C functions share: numbers and nodes in lent cells, and a cluster that enters as its record.
#![tactic(auto)]

ghost use Rattle.std.specs.Prelude.{◌≡◌, ◌++◌, ◌+◌, ◌*◌, ◌/◌, ◌%◌, ◌^◌, ◌≤◌, length, take, drop};
ghost use Rattle.cluster.specs.Terms.{most_nodes};
ghost use Rattle.answers.specs.TermsAnswers.{halves, node_cells_width, node_cells};

use cluster::Cluster;

pub mod entering;
pub mod stopped;

// The cells of a node: id, zone, capacity, ceiling.
pub const NODE: usize = 4;

// The high half of a number of 64 bits.
pub fn high(x: u64) -> u32
    ensures { result ≡ x / 2 ^ 32 }
{
    (x >> 32) as u32
}

// The low half of a number of 64 bits.
pub fn low(x: u64) -> u32
    ensures { result ≡ x % 2 ^ 32 }
{
    (x & 0xffff_ffff) as u32
}

// A number of 64 bits goes into the first two cells, numbers into those after them.
pub fn put_after(x: u64, numbers: &[u32], cells: &mut [u32])
    requires { 2 + length numbers.now ≤ length cells.old }
    ensures { cells.new ≡ halves x ++ numbers.now ++ drop (2 + length numbers.now) cells.old }
{
    cells::put(numbers, 2, cells);
    let first = [high(x), low(x)];
    cells::put(&first, 0, cells);
}

// The slots of a cluster go into the cells from `at` on.
pub fn put_nodes(c: Cluster, at: usize, cells: &mut [u32])
    requires { at + node_cells_width * most_nodes ≤ length cells.old }
    ensures { cells.new ≡ take at cells.old ++ node_cells c.nodes ++ drop (at + node_cells_width * most_nodes) cells.old }
{
    for (b, node) in c.nodes.iter().enumerate() {
        let numbers = [
            node.id,
            node.zone as u32,
            node.capacity,
            node.ceiling as u32,
        ];
        cells::put(&numbers, at + NODE * b, cells);
    }
}
