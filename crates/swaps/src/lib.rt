// Which zones a row touches, and which nodes may take a node's place in it. A row is a set of nodes; mates[b] is the set of the nodes of
// b's zone. Every function is total: a cell past a slice's end counts as 0.
#![tactic(auto)]

ghost use Rattle.std.specs.Prelude.{◌≡◌, ◌≤◌, length, get_or};
ghost use Rattle.swaps.specs.ModelSwaps.{tight_of, targets_in, Tight};

pub mod instance;

// The rows of a leaf: what the rows of a leaf allow is kept until one of them changes. Row p stands in leaf p / LEAF.
pub const LEAF: usize = 4;

// The cell i of a slice; 0 past its end.
pub fn cell(cells: &[u32], i: usize) -> u32
    ensures { result ≡ get_or cells.now i 0 }
{
    if i < cells.len() { cells[i] } else { 0 }
}

// The nodes of the zones of a row that touches no more than z. The zones are taken one after the other: the least node that is left tells a zone, whose
// nodes are left no more. None where there are more than z: then any node may give way to any other.
pub fn tight(mates: &[u32], z: u32, row: u32) -> u32
    ensures { result ≡ tight_of mates.now z row }
{
    let mut left = row;
    let mut nodes = 0;
    for _count in 0..z {
        if left == 0 {
            return nodes;
        }
        let mate = cell(mates, sets::least(left) as usize);
        left = sets::difference(sets::rest(left), mate);
        nodes = sets::union(nodes, mate);
    }
    if left == 0 { nodes } else { 0 }
}

// The same for each of the first `partitions` rows, into their cells of `tight`.
pub fn tighten(mates: &[u32], z: u32, rows: &[u32], partitions: usize, tight: &mut [u32])
    requires { partitions ≤ length tight.old }
    ensures { Tight mates.now z rows.now partitions tight.new }
{
    for p in 0..partitions {
        tight[p] = self::tight(mates, z, cell(rows, p));
    }
}

// The nodes of `all` that may take the place of a node of the row whose zone is `mate`: all outside the row where it has another node of that zone;
// else those of that zone and of the zones outside `tight`.
pub fn targets_in(all: u32, row: u32, mate: u32, tight: u32) -> u32
    ensures { result ≡ targets_in all row mate tight }
{
    let free = sets::difference(all, row);
    if sets::rest(sets::meet(row, mate)) != 0 {
        return free;
    }
    sets::meet(free, sets::union(mate, sets::difference(all, tight)))
}
