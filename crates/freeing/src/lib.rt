// A walk is freed of crossed pairs: where two of its arcs stand in each other's way, it goes on with the part between them or with the rest, whichever
// gains. A walk of m arcs is two slices, its m + 1 nodes and the partitions of its arcs.
#![tactic(auto)]

ghost use Rattle.std.specs.Prelude.{◌≡◌, ◌+◌, ◌≤◌, ◌<◌, length, get_or};
ghost use Rattle.cells.specs.ModelCells.{put};
ghost use Rattle.cluster.specs.Terms.{most_nodes};
ghost use Rattle.exchange.specs.ModelUncross.{split, Same};
ghost use Rattle.sets.specs.ModelBits.{bits_at};
ghost use Rattle.swaps.specs.ModelSwaps.{Tight};
ghost use Rattle.walks.specs.ModelWalks.{walk_in};
ghost use Rattle.freeing.specs.ModelFreed.{freed_of};

use swaps::instance::Instance;

// The n cells from `start` on give way to those that stand k further on.
fn shift(cells: &mut [u32], start: usize, k: usize, n: usize)
    requires { start + k + n ≤ length cells.old }
    ensures { cells.new ≡ put start (λ t. get_or cells.old (start + t + k) 0) n cells.old }
{
    cells.copy_within(start + k..start + k + n, start);
}

// The walk goes on with the inner part at the arcs i and j if it gains, else with the outer part. Its new length is answered.
fn divide(y: &mut [u32], q: &mut [u32], m: usize, i: usize, j: usize, given: &Instance) -> usize
    requires { (i < j) × (j < m) × (m ≤ most_nodes) × (m < length y.old) × (m ≤ length q.old) }
    ensures { let g = given.now in (result ≤ m) × (length y.new ≡ length y.old) × (length q.new ≡ length q.old)
        × Same (split g.partitions 1 (bits_at g.former.now) (walk_in m y.old q.old) i j) (walk_in result y.new q.new) }
{
    let k = j - i;
    if crossings::gains(y, q, i as u32, j as u32, given) {
        shift(y, 0, i + 1, k);
        shift(q, 0, i + 1, k);
        y[k] = y[0];
        return k;
    }
    shift(y, i + 1, k, m - j);
    shift(q, i + 1, k, m - j - 1);
    m - k
}

// The walk is freed of crossed pairs. Its new length is answered.
pub fn free(
    y: &mut [u32],
    q: &mut [u32],
    m: usize,
    rows: &[u32],
    tight: &[u32],
    given: &Instance,
    all: u32,
) -> usize
    requires { let g = given.now in (m ≤ most_nodes) × (m < length y.old) × (m ≤ length q.old) × Tight g.mates.now g.z rows.now g.partitions tight.now }
    ensures { let g = given.now in (result ≤ m) × (length y.new ≡ length y.old) × (length q.new ≡ length q.old)
        × Same (freed_of rows.now g.former.now g.partitions g.mates.now all g.z (walk_in m y.old q.old))
        (walk_in result y.new q.new) }
{
    let mut len = m;
    for _split in 0..m {
        let n = len as u32;
        let Some(i) = crossings::earlier(y, q, n, rows, tight, given, all) else {
            return len;
        };
        let j = crossings::later(y, q, n, i, rows, tight, given, all).unwrap();
        len = divide(y, q, len, i as usize, j, given);
    }
    len
}
