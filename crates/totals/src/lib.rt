// The ids in the rows of a layout in lent cells, one after another, and how many rows name each.
#![tactic(auto)]

ghost use Rattle.std.specs.Prelude.{◌≡◌, ◌||◌, ℕ, ◌+◌, ◌*◌, ◌≤◌, ◌<◌, eqb, length, take};
ghost use Rattle.cluster.specs.Terms.{row_cells, buffer_rows, layout_cells, mem};
ghost use Rattle.totals.specs.ModelTotals.{least_above, count_in, SameIds};

use cluster::Cluster;

pub mod reading;
pub mod writing;

// The least of the first `count` ids above `last`; 0 where there is none.
pub fn least_above(ids: &[u32], count: usize, last: u32) -> u32
    requires { count ≤ length ids.now }
    ensures { result ≡ least_above last (take count ids.now) }
{
    let ids = ids[..count].iter().copied();
    ids.filter(|id| last < *id).min().unwrap_or(0)
}

// How many cells in the rows of the first partitions hold an id.
pub fn copies_of(cells: &[u32], partitions: usize, id: u32) -> u32
    requires { (partitions ≤ buffer_rows) × (partitions * row_cells ≤ length cells.now) }
    ensures { result ≡ count_in id (take (partitions * row_cells) cells.now) }
{
    // A loop: the machine code of a filter's count takes one cell a turn, and that of this one sixteen.
    let mut copies = 0;
    for cell in &cells[..partitions * Cluster::ROW] {
        if *cell == id {
            copies += 1;
        }
    }
    copies
}

// Puts an id behind the first `count`, unless it is among them; answers how many there are then.
fn with_id(ids: &mut [u32], count: usize, id: u32) -> usize
    requires { count < length ids.old }
    ensures { (length ids.new ≡ length ids.old) × (result ≤ count + 1)
        × ((j : ℕ) → mem j (take result ids.new) ≡ (mem j (take count ids.old) || eqb j id)) }
{
    if ids[..count].contains(&id) {
        return count;
    }
    ids[count] = id;
    count + 1
}

// The slot in which an id is kept in mind when it has been met; 0, no id, has its own.
fn slot_of(id: u32) -> usize
    ensures { result ≤ 1024 }
{
    if id == 0 {
        return 1024;
    }
    (id % 1024) as usize
}

// Gathers the ids in the rows of the first partitions, each once, as they are met; answers how many there are. An id that stands in its slot has been met:
// most cells ask no more than that.
pub fn gather(cells: &[u32], partitions: usize, ids: &mut [u32]) -> usize
    requires { (partitions ≤ buffer_rows) × (partitions * row_cells ≤ length cells.now) × (layout_cells ≤ length ids.old) }
    ensures { (length ids.new ≡ length ids.old) × (result ≤ length ids.old)
        × SameIds (take result ids.new) (take (partitions * row_cells) cells.now) }
{
    let end = partitions * Cluster::ROW;
    let mut met = [0u32; 1025];
    let mut count = 0;
    for i in 0..end {
        let id = cells[i];
        let slot = slot_of(id);
        if met[slot] == id {
            continue;
        }
        count = with_id(ids, count, id);
        met[slot] = id;
    }
    count
}
