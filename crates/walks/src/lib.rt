// What is read off an arc of the exchange graph: the partition in which it is an exchange, the next one in which it is the same exchange again, and what
// it costs. A row is a set of nodes. Partitions are looked for in the sets of those that each node holds (`held`) and held in the former rows (`had`). A cell
// past a slice's end counts as 0.
#![tactic(auto)]

ghost use Rattle.std.specs.Prelude.{◌≡◌, ℕ, ◌+◌, ◌-◌, ◌≤◌, ◌<◌, is_some, unwrap_or, IfSome};
ghost use Rattle.cluster.specs.Terms.{buffer_rows};
ghost use Rattle.sums.specs.ModelSums.{first_from};
ghost use Rattle.sets.specs.ModelBits.{mask_bits, bit, bits_at};
ghost use Rattle.exchange.specs.ModelCircuit.{cost};
ghost use Rattle.levels.specs.ModelGraph.{weight_of};
ghost use Rattle.swaps.specs.ModelSwaps.{Tight};
ghost use Rattle.holders.specs.ModelHolders.{Follows, Held};
ghost use Rattle.walks.specs.ModelWalks.{Picks, ok_of, sifted_of, suits_at, witness_of, room_at, renewed_at, stands_at};

use cluster::Cluster;
use holders::{BITS, WORDS};
use swaps::instance::Instance;

// Digit i of s.
fn digit(s: u32, i: u32) -> u32
    ensures { (result ≡ bit s i) × (result ≤ 1) }
{
    if sets::member(s, i) { 1 } else { 0 }
}

// The weight of the arc from u to v, more by 1.
fn weight(arcs: &[u32], u: u32, v: u32) -> u32
    ensures { (result ≡ weight_of arcs.now u v) × (result ≤ 2) }
{
    if sets::member(swaps::cell(arcs, u as usize), v) {
        return 0;
    }
    if sets::member(swaps::cell(arcs, Cluster::NODES + u as usize), v) {
        return 1;
    }
    2
}

// The partitions of a word that are in `own` and not in `other`, and of these the ones where that exchange has the weight w.
fn candidates(own: u32, other: u32, owned: u32, othered: u32, w: u32) -> u32
    requires { w ≤ 2 }
    ensures { Picks own other owned othered w result }
{
    let here = sets::difference(own, other);
    let lost = sets::difference(owned, othered);
    let won = sets::difference(othered, owned);
    if w == 0 {
        return sets::meet(here, won);
    }
    if w == 1 {
        return sets::difference(here, sets::union(lost, won));
    }
    sets::meet(here, lost)
}

// The first of the partitions of a word, which begins at `base`, in whose row u may give way to v, if there is one.
fn sift(
    rows: &[u32],
    tight: &[u32],
    given: &Instance,
    all: u32,
    u: u32,
    v: u32,
    base: usize,
    word: u32,
) -> Option<u32>
    requires { let g = given.now in (base < buffer_rows) × ((j : ℕ) → j < mask_bits → bit word j ≡ 1 → base + j < g.partitions) × Tight g.mates.now g.z rows.now g.partitions tight.now }
    ensures { let g = given.now in (unwrap_or result mask_bits ≡ sifted_of rows.now g.mates.now all g.z u v base word) × IfSome result (λ j. j < mask_bits) }
{
    for j in sets::iter(word) {
        let p = base + j as usize;
        if allows(rows, tight, given, all, p, u, v) {
            return Some(j);
        }
    }
    None
}

// The first partition from `start` on with the exchange of u for v at the weight w, if there is one. A node past the last is in no row.
pub fn first(
    rows: &[u32],
    tight: &[u32],
    held: &[u32],
    given: &Instance,
    all: u32,
    w: u32,
    u: u32,
    v: u32,
    start: usize,
) -> Option<usize>
    requires { let g = given.now in (w ≤ 2) × (start ≤ g.partitions) × (g.partitions ≤ buffer_rows) × Follows g rows.now tight.now held.now × Held g.former.now g.partitions g.had.now }
    ensures { let g = given.now in (unwrap_or result g.partitions ≡ first_from (suits_at rows.now g.former.now g.mates.now all g.z w u v) (g.partitions - start) start) × IfSome result (λ p. p < g.partitions) }
{
    if Cluster::NODES <= u as usize {
        return None;
    }
    if Cluster::NODES <= v as usize {
        return None;
    }
    let mut p = start;
    while p < given.partitions {
        let k = p / BITS;
        let i = WORDS * u as usize + k;
        let j = WORDS * v as usize + k;
        let word = candidates(held[i], held[j], given.had[i], given.had[j], w);
        let left = sets::difference(word, sets::below((p % BITS) as u32));
        if let Some(j) = sift(rows, tight, given, all, u, v, BITS * k, left) {
            return Some(BITS * k + j as usize);
        }
        p = BITS * k + BITS;
    }
    None
}

// The first partition with the exchange of u for v at the arc's weight.
pub fn witness(
    rows: &[u32],
    tight: &[u32],
    held: &[u32],
    given: &Instance,
    arcs: &[u32],
    all: u32,
    u: u32,
    v: u32,
) -> usize
    requires { let g = given.now in (g.partitions ≤ buffer_rows) × Follows g rows.now tight.now held.now × Held g.former.now g.partitions g.had.now }
    ensures { let g = given.now in (result ≡ witness_of rows.now g.former.now g.partitions g.mates.now arcs.now all g.z u v) × (result ≤ g.partitions) }
{
    let w = weight(arcs, u, v);
    first(rows, tight, held, given, all, w, u, v, 0).unwrap_or(given.partitions)
}

// Whether node a of the row of partition p may give way to node b.
pub fn allows(
    rows: &[u32],
    tight: &[u32],
    given: &Instance,
    all: u32,
    p: usize,
    a: u32,
    b: u32,
) -> bool
    requires { let g = given.now in (p < g.partitions) × Tight g.mates.now g.z rows.now g.partitions tight.now }
    ensures { let g = given.now in result ≡ ok_of rows.now g.mates.now all g.z p a b }
{
    let row = swaps::cell(rows, p);
    let mate = swaps::cell(given.mates, a as usize);
    sets::member(swaps::targets_in(all, row, mate, tight[p]), b)
}

// What the arc from a to b at q costs: an exchange loses a former node or wins one; a step over the store costs 1.
pub fn arc_cost(former: &[u32], partitions: usize, q: u32, a: u32, b: u32) -> usize
    ensures { (result ≡ cost partitions 1 (bits_at former.now) q a b) × (result ≤ 2) }
{
    if (q as usize) < partitions {
        let old = swaps::cell(former, q as usize);
        return (1 + digit(old, a) - digit(old, b)) as usize;
    }
    1
}

// Whether node u has fewer copies in the rows than its cap. A node past the last has none.
pub fn room(rows: &[u32], held: &[u32], partitions: usize, caps: &[u32], u: u32) -> bool
    requires { (partitions ≤ buffer_rows) × Held rows.now partitions held.now }
    ensures { result ≡ room_at rows.now partitions caps.now u }
{
    let cap = swaps::cell(caps, u as usize);
    if Cluster::NODES <= u as usize {
        return 0 < cap;
    }
    holders::count(rows, partitions, held, u) < cap
}

// The arc from u to v again, which was an exchange at q: the next partition, from q on, with the same exchange at the same cost. A step over the
// store, `partitions`, stays one where u has room.
pub fn renewed(
    rows: &[u32],
    tight: &[u32],
    held: &[u32],
    given: &Instance,
    all: u32,
    q: u32,
    u: u32,
    v: u32,
) -> Option<usize>
    requires { let g = given.now in (g.partitions ≤ buffer_rows) × Follows g rows.now tight.now held.now × Held g.former.now g.partitions g.had.now }
    ensures { let g = given.now in (is_some result ≡ stands_at rows.now g.former.now g.partitions g.mates.now all g.z g.caps.now q u v)
        × (unwrap_or result g.partitions ≡ renewed_at rows.now g.former.now g.partitions g.mates.now all g.z q u v)
        × IfSome result (λ p. p ≤ g.partitions) }
{
    let start = q as usize;
    if given.partitions <= start {
        return if room(rows, held, given.partitions, given.caps, u) {
            Some(given.partitions)
        } else {
            None
        };
    }
    let w = arc_cost(given.former, given.partitions, q, u, v) as u32;
    first(rows, tight, held, given, all, w, u, v, start)
}
