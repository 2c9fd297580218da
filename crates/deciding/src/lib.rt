// The pairs of a nearest layout are decided one after another, partitions from 0 and nodes by rising id: a pair that some nearest layout with the same
// pairs before has is brought in by a circuit of even exchanges (`attempts`).
#![tactic(auto)]

ghost use Rattle.std.specs.Prelude.{◌≡◌, suc, ◌≤◌, ◌<◌, length, get_or};
ghost use Rattle.cluster.specs.Terms.{most_nodes, buffer_rows};
ghost use Rattle.levels.specs.ModelGraph.{arc_cells};
ghost use Rattle.holders.specs.ModelHolders.{Follows, Held};
ghost use Rattle.evens.specs.ModelEvens.{wanted_of};
ghost use Rattle.attempts.specs.ModelDeciding.{Keeps, Reaches};

use swaps::instance::Instance;

// Decides the pair (p, b).
fn decide(
    rows: &mut [u32],
    tight: &mut [u32],
    held: &mut [u32],
    leads: &mut [u32],
    given: &Instance,
    all: u32,
    even: &[u32],
    p: usize,
    b: u32,
)
    requires { let g = given.now in (b < most_nodes) × (p < g.partitions) × (g.partitions ≤ buffer_rows) × (g.partitions ≤ length rows.old) × (length leads.old ≡ most_nodes)
        × (length even.now ≡ arc_cells)
        × Follows g rows.old tight.old held.old × Held g.former.now g.partitions g.had.now }
    ensures { let g = given.now in (length rows.new ≡ length rows.old) × (length leads.new ≡ most_nodes)
        × Follows g rows.new tight.new held.new
        × Keeps g.partitions g.former.now g.mates.now g.caps.now all g.z even.now p b
        rows.old leads.old (suc b) rows.new leads.new }
{
    let row = rows[p];
    if sets::member(row, b) {
        return;
    }
    let goal = evens::givers(
        row,
        tight[p],
        swaps::cell(given.former, p),
        given.mates,
        all,
        given.z,
        even,
        b,
    );
    let mut again = goal != 0;
    // A `while`: an attempt tells whether there is another one.
    while again {
        again = attempts::attempt(rows, tight, held, leads, given, all, even, p, b, goal);
    }
}

// Decides the pair (p, b), which cannot come in where b is not wanted. The nodes that are wanted then are answered: those of before where the row stayed.
fn consider(
    rows: &mut [u32],
    tight: &mut [u32],
    held: &mut [u32],
    leads: &mut [u32],
    given: &Instance,
    all: u32,
    even: &[u32],
    p: usize,
    b: u32,
    wanted: u32,
) -> u32
    requires { let g = given.now in (b < most_nodes) × (p < g.partitions) × (g.partitions ≤ buffer_rows) × (g.partitions ≤ length rows.old) × (length leads.old ≡ most_nodes)
        × (length even.now ≡ arc_cells) × (wanted ≡ wanted_of even.now (get_or rows.old p 0) (get_or g.former.now p 0))
        × Follows g rows.old tight.old held.old × Held g.former.now g.partitions g.had.now }
    ensures { let g = given.now in (length rows.new ≡ length rows.old) × (length leads.new ≡ most_nodes)
        × Follows g rows.new tight.new held.new
        × Keeps g.partitions g.former.now g.mates.now g.caps.now all g.z even.now p b
        rows.old leads.old (suc b) rows.new leads.new
        × (result ≡ wanted_of even.now (get_or rows.new p 0) (get_or g.former.now p 0)) }
{
    if !sets::member(wanted, b) {
        return wanted;
    }
    let row = rows[p];
    decide(rows, tight, held, leads, given, all, even, p, b);
    let new = rows[p];
    if new == row {
        return wanted;
    }
    evens::wanted(new, swaps::cell(given.former, p), even)
}

// Decides the pairs of a row, by rising node.
fn decide_row(
    rows: &mut [u32],
    tight: &mut [u32],
    held: &mut [u32],
    leads: &mut [u32],
    given: &Instance,
    nodes: u32,
    even: &[u32],
    p: usize,
)
    requires { let g = given.now in (nodes ≤ most_nodes) × (p < g.partitions) × (g.partitions ≤ buffer_rows) × (g.partitions ≤ length rows.old) × (length leads.old ≡ most_nodes)
        × (length even.now ≡ arc_cells)
        × Follows g rows.old tight.old held.old × Held g.former.now g.partitions g.had.now }
    ensures { let g = given.now in (length rows.new ≡ length rows.old) × (length leads.new ≡ most_nodes)
        × Follows g rows.new tight.new held.new
        × Reaches g.partitions g.former.now g.mates.now g.caps.now nodes g.z even.now p 0
        rows.old leads.old (suc p) 0 rows.new leads.new }
{
    let all = sets::below(nodes);
    let mut wanted = evens::wanted(rows[p], swaps::cell(given.former, p), even);
    for b in 0..nodes {
        wanted = consider(rows, tight, held, leads, given, all, even, p, b, wanted);
    }
}

// Decides all pairs, row by row.
pub fn decide_rows(
    rows: &mut [u32],
    tight: &mut [u32],
    held: &mut [u32],
    leads: &mut [u32],
    given: &Instance,
    nodes: u32,
    even: &[u32],
)
    requires { let g = given.now in (nodes ≤ most_nodes) × (g.partitions ≤ buffer_rows) × (g.partitions ≤ length rows.old) × (length leads.old ≡ most_nodes) × (length even.now ≡ arc_cells)
        × Follows g rows.old tight.old held.old × Held g.former.now g.partitions g.had.now }
    ensures { let g = given.now in (length rows.new ≡ length rows.old)
        × Reaches g.partitions g.former.now g.mates.now g.caps.now nodes g.z even.now 0 0
        rows.old leads.old g.partitions 0 rows.new leads.new }
{
    for p in 0..given.partitions {
        decide_row(rows, tight, held, leads, given, nodes, even, p);
    }
}
