// For each node the set of the partitions whose row has it, in words of BITS partitions, and after the sets how many partitions each has: the copies
// of the node. A node past the last has no set.
#![tactic(auto)]

ghost use Rattle.std.specs.Prelude.{◌≡◌, ◌≤◌, ◌<◌, ltb, get_or};
ghost use Rattle.sums.specs.TermsSums.{one_if};
ghost use Rattle.sums.specs.ModelSums.{is};
ghost use Rattle.cluster.specs.Terms.{most_nodes, buffer_rows};
ghost use Rattle.exchange.specs.ModelRow.{copies};
ghost use Rattle.sets.specs.ModelBits.{bit, bits_at, mask_of};
ghost use Rattle.holders.specs.ModelHolders.{holds, Counted, Held, Absent, Taken, Gone, Exchanged};

use cluster::Cluster;

// The partitions of a word.
pub const BITS: usize = sets::WIDTH as usize;
// The words of a set.
pub const WORDS: usize = Cluster::PARTITIONS / BITS;
// The cells of all sets, after which the counts stand.
const COUNTS: usize = Cluster::NODES * WORDS;
// The cells of the sets and of the counts.
pub const CELLS: usize = COUNTS + Cluster::NODES;

// Node u takes partition p on, which its set lacks.
fn add(held: &mut [u32], p: usize, u: u32)
    requires { Counted held.old × (p < buffer_rows) × (u < most_nodes) × (holds held.old u p ≡ 0) }
    ensures { Counted held.new × Taken (is u) p held.old held.new }
{
    let i = WORDS * u as usize + p / BITS;
    held[i] = sets::with(held[i], (p % BITS) as u32);
    held[COUNTS + u as usize] += 1;
}

// Node u takes partition p on.
fn take_on(held: &mut [u32], p: usize, u: u32)
    requires { Counted held.old × (p < buffer_rows) }
    ensures { Counted held.new × Taken (is u) p held.old held.new }
{
    if (u as usize) < Cluster::NODES {
        let word = held[WORDS * u as usize + p / BITS];
        if !sets::member(word, (p % BITS) as u32) {
            add(held, p, u);
        }
    }
}

// Node u lets partition p go.
fn let_go(held: &mut [u32], p: usize, u: u32)
    requires { Counted held.old × (p < buffer_rows) }
    ensures { Counted held.new × Gone u p held.old held.new }
{
    if (u as usize) < Cluster::NODES {
        let i = WORDS * u as usize + p / BITS;
        let j = (p % BITS) as u32;
        let word = held[i];
        if sets::member(word, j) {
            held[COUNTS + u as usize] -= 1;
            held[i] = sets::without(word, j);
        }
    }
}

// Node u gave way to node v in the row of partition p.
pub fn exchange(held: &mut [u32], p: usize, u: u32, v: u32)
    requires { Counted held.old × (p < buffer_rows) }
    ensures { Exchanged p u v held.old held.new }
{
    let_go(held, p, u);
    take_on(held, p, v);
}

// Each node of the row takes partition p on, which no set has: so none is asked whether it does.
fn hold(held: &mut [u32], p: usize, row: u32)
    requires { Counted held.old × (p < buffer_rows) × Absent p held.old }
    ensures { Counted held.new × Taken (bit row) p held.old held.new }
{
    for u in sets::iter(row) {
        add(held, p, u);
    }
}

// The sets of the rows, from those of no row.
pub fn fill(rows: &[u32], partitions: usize, held: &mut [u32])
    requires { (partitions ≤ buffer_rows) × Held rows.now 0 held.old }
    ensures { Held rows.now partitions held.new }
{
    for p in 0..partitions {
        hold(held, p, swaps::cell(rows, p));
    }
}

// How many of the rows have node u.
pub fn count(rows: &[u32], partitions: usize, held: &[u32], u: u32) -> u32
    requires { (partitions ≤ buffer_rows) × (u < most_nodes) × Held rows.now partitions held.now }
    ensures { result ≡ copies partitions (bits_at rows.now) u }
{
    held[COUNTS + u as usize]
}

// The set of the nodes below `nodes` that have fewer copies in the rows than their caps. A cap past the end of the slice is 0.
pub fn room(rows: &[u32], partitions: usize, held: &[u32], caps: &[u32], nodes: u32) -> u32
    requires { (nodes ≤ most_nodes) × (partitions ≤ buffer_rows) × Held rows.now partitions held.now }
    ensures { result ≡ mask_of (λ u. one_if (ltb (copies partitions (bits_at rows.now) u) (get_or caps.now u 0))) nodes }
{
    let mut free = 0;
    for u in 0..nodes {
        if count(rows, partitions, held, u) < swaps::cell(caps, u as usize) {
            free = sets::with(free, u);
        }
    }
    free
}
