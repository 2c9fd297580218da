// Pairs of arcs of a closed walk of the exchange graph: the first that can be crossed, and whether the part between two arcs gains. A walk is two slices,
// its nodes and the partitions of its arcs. A cell past a slice's end counts as 0, and the arcs are numbered by u32, so that the next one is always an index.
#![tactic(auto)]

ghost use Rattle.std.specs.Prelude.{◌≡◌, ◌+◌, ◌<◌, ◌^◌, max, get_or, unwrap_or, IfSome};
ghost use Rattle.sets.specs.ModelBits.{bits_at};
ghost use Rattle.exchange.specs.ModelUncross.{crosses, partner, first_crossed};
ghost use Rattle.swaps.specs.ModelSwaps.{Tight};
ghost use Rattle.walks.specs.ModelWalks.{ok_of, walk_in, inner_gains};

use swaps::instance::Instance;

// Whether the arcs i and j of the walk can be crossed.
fn crossed(
    y: &[u32],
    q: &[u32],
    i: usize,
    j: usize,
    rows: &[u32],
    tight: &[u32],
    given: &Instance,
    all: u32,
) -> bool
    requires { let g = given.now in (i < 2 ^ 32) × (j < 2 ^ 32) × Tight g.mates.now g.z rows.now g.partitions tight.now }
    ensures { let g = given.now in result
        ≡ crosses g.partitions (ok_of rows.now g.mates.now all g.z) (λ t. get_or y.now t 0) (λ t. get_or q.now t 0) i j }
{
    let e = swaps::cell(q, i);
    let p = e as usize;
    if given.partitions <= p {
        return false;
    }
    if e != swaps::cell(q, j) {
        return false;
    }
    let from = swaps::cell(y, j + 1);
    let to = swaps::cell(y, i);
    if !walks::allows(rows, tight, given, all, p, from, to) {
        return false;
    }
    let from = swaps::cell(y, i + 1);
    let to = swaps::cell(y, j);
    walks::allows(rows, tight, given, all, p, from, to)
}

// The first arc after i that can be crossed with it, if there is one.
pub fn later(
    y: &[u32],
    q: &[u32],
    m: u32,
    i: u32,
    rows: &[u32],
    tight: &[u32],
    given: &Instance,
    all: u32,
) -> Option<usize>
    requires { let g = given.now in Tight g.mates.now g.z rows.now g.partitions tight.now }
    ensures { let g = given.now in (unwrap_or result (max (i + 1) m) ≡ partner g.partitions (ok_of rows.now g.mates.now all g.z) (walk_in m y.now q.now) i)
        × IfSome result (λ j. j < m) }
{
    for j in i as usize + 1..m as usize {
        if crossed(y, q, i as usize, j, rows, tight, given, all) {
            return Some(j);
        }
    }
    None
}

// The first arc that can be crossed with a later one, if there is one.
pub fn earlier(
    y: &[u32],
    q: &[u32],
    m: u32,
    rows: &[u32],
    tight: &[u32],
    given: &Instance,
    all: u32,
) -> Option<u32>
    requires { let g = given.now in Tight g.mates.now g.z rows.now g.partitions tight.now }
    ensures { let g = given.now in (unwrap_or result m ≡ first_crossed g.partitions (ok_of rows.now g.mates.now all g.z) (walk_in m y.now q.now))
        × IfSome result (λ i. i < m) }
{
    for i in 0..m {
        if later(y, q, m, i, rows, tight, given, all).is_some() {
            return Some(i);
        }
    }
    None
}

// Whether the inner part of the walk, at the arcs i and j, gains: the arcs between them, and the one that closes it.
pub fn gains(y: &[u32], q: &[u32], i: u32, j: u32, given: &Instance) -> bool
    ensures { let g = given.now in result ≡ inner_gains g.partitions (bits_at g.former.now) (walk_in (j + 1) y.now q.now) i j }
{
    if j <= i {
        return false;
    }
    let end = j as usize;
    let next = i as usize + 1;
    let mut sum = walks::arc_cost(
        given.former,
        given.partitions,
        swaps::cell(q, end),
        swaps::cell(y, next),
        swaps::cell(y, end),
    );
    for t in next..end {
        sum += walks::arc_cost(
            given.former,
            given.partitions,
            swaps::cell(q, t),
            swaps::cell(y, t + 1),
            swaps::cell(y, t),
        );
    }
    sum < (j - i) as usize
}
