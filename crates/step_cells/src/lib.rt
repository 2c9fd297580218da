// The steps from what is held of a partition to its new row, both as sets of nodes: how many they are, and their cells.
#![tactic(auto)]

ghost use Rattle.std.specs.Prelude.{◌≡◌, List, ◌++◌, ◌+◌, ◌*◌, ◌^◌, ◌≤◌, ◌<◌, length, take, drop};
ghost use Rattle.sets.specs.ModelBits.{bit, count_of};
ghost use Rattle.cluster.specs.Terms.{most_nodes, ids_of};
ghost use Rattle.cluster.specs.declared.Node.{Node};
ghost use Rattle.incidence.specs.ModelIncidence.{ids_where};
ghost use Rattle.moves.specs.TermsMoves.{step_width};
ghost use Rattle.step_cells.specs.ModelSteps.{step_count, first_id, kind_cells, row_steps};

// The cells of a step: kind, partition, node, source.
pub const STEP: usize = 4;

// The kinds of a step.
const SEND: u32 = 0;

const DROP: u32 = 1;

// Steps of one kind at one partition: one for each node of a set, all from one source.
#[derive(Clone, Copy)]
struct Steps {
    kind: u32,
    partition: u32,
    source: u32,
    nodes: u32,
}

// How many steps lead from the nodes `old` to the nodes `new`.
pub fn count(old: u32, new: u32) -> u32
    ensures { result ≡ step_count old new }
{
    let sends = sets::count(sets::difference(new, old));
    let drops = sets::count(sets::difference(old, new));
    sends + drops
}

// The lowest id of the nodes of a set, 0 where it has none.
fn first_id(ids: &[u32], nodes: u32) -> u32
    requires { length ids.now ≤ most_nodes }
    ensures { (ns : List Node) → ids.now ≡ ids_of ns → result ≡ first_id ns nodes }
{
    let b = sets::least(nodes) as usize;
    if b < ids.len() { ids[b] } else { 0 }
}

// Steps of one kind into the cells from `at` on, by rising id; the answer is the cell after them.
fn put_steps(ids: &[u32], steps: Steps, cells: &mut [u32], at: usize) -> usize
    requires { (length ids.now ≤ most_nodes) × (steps.nodes < 2 ^ length ids.now) × (at + step_width * count_of steps.nodes ≤ length cells.old) }
    ensures { (result ≡ at + step_width * count_of steps.nodes) × ((ns : List Node) → ids.now ≡ ids_of ns
        → cells.new ≡ take at cells.old ++ kind_cells steps.kind steps.partition steps.source (ids_where ns (bit steps.nodes))
        ++ drop (at + step_width * count_of steps.nodes) cells.old) }
{
    let mut to = at;
    for b in sets::iter(steps.nodes) {
        let step = [steps.kind, steps.partition, ids[b as usize], steps.source];
        cells::put(&step, to, cells);
        to += STEP;
    }
    to
}

// The steps of a partition from the nodes `old` to the nodes `new` into the cells from `at` on: first the sends, from the lowest of the old nodes, then
// the drops; the answer is the cell after them.
pub fn put_row(
    ids: &[u32],
    partition: u32,
    old: u32,
    new: u32,
    cells: &mut [u32],
    at: usize,
) -> usize
    requires { (length ids.now ≤ most_nodes) × (old < 2 ^ length ids.now) × (new < 2 ^ length ids.now) × (at + step_width * step_count old new ≤ length cells.old) }
    ensures { (result ≡ at + step_width * step_count old new) × ((ns : List Node) → ids.now ≡ ids_of ns
        → cells.new ≡ take at cells.old ++ row_steps ns partition old new ++ drop (at + step_width * step_count old new) cells.old) }
{
    let sends = Steps {
        kind: SEND,
        partition,
        source: first_id(ids, old),
        nodes: sets::difference(new, old),
    };
    let drops = Steps {
        kind: DROP,
        partition,
        source: 0,
        nodes: sets::difference(old, new),
    };
    let then = put_steps(ids, sends, cells, at);
    put_steps(ids, drops, cells, then)
}
