// The search for the first set of so many nodes that costs the most rows.
ghost use Rattle.std.specs.Prelude.{◌≡◌, ◌-◌, ◌≤◌, length};
ghost use Rattle.cluster.specs.Terms.{most_nodes, buffer_rows};
ghost use Rattle.sets.specs.ModelBits.{below_of};
ghost use Rattle.loss.specs.ModelSearch.{costing, kept_of, searched};

use super::rows;

// A set of nodes, and how many rows it costs.
#[derive(Clone, Copy)]
pub struct Found {
    pub lost: u32,
    pub set: u32,
}

// The best set so far, or this one where it costs more.
fn kept(rows: &[u32], set: u32, best: Found) -> Found
    requires { length rows.now ≡ buffer_rows }
    ensures { result ≡ kept_of rows.now set best }
{
    let lost = rows::lost_rows(rows, set);
    if best.lost < lost {
        Found { lost, set }
    } else {
        best
    }
}

// Nodes are taken off one at a time, `left` more, each after the one before it: the best of all sets that have those of `set` and so many of the
// nodes from `from` on, in the order of their ids; only one that costs more takes the place of the best so far. The last node needs no call of its own.
fn search(rows: &[u32], n: u32, from: u32, left: u32, set: u32, best: Found) -> Found
    requires { (length rows.now ≡ buffer_rows) × (n ≤ most_nodes) × (from ≤ n) × (1 ≤ left) }
    ensures { result ≡ searched rows.now left from (n - from) set best }
{
    let mut most = best;
    for b in from..(n + 1).saturating_sub(left) {
        let taken = sets::with(set, b);
        if left == 1 {
            most = kept(rows, taken, most);
        } else {
            most = search(rows, n, b + 1, left - 1, taken, most);
        }
    }
    most
}

// The first set of so many of the n nodes that costs the most rows: the search begins with the lowest nodes. Of none there is one set.
pub fn worst(rows: &[u32], n: u32, number: u32) -> Found
    requires { (length rows.now ≡ buffer_rows) × (n ≤ most_nodes) }
    ensures { result ≡ searched rows.now number 0 n 0 (costing rows.now (below_of number)) }
{
    let set = sets::below(number);
    let lost = rows::lost_rows(rows, set);
    if number == 0 {
        return Found { lost, set };
    }
    search(rows, n, 0, number, 0, Found { lost, set })
}
