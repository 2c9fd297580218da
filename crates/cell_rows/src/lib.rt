// Rows of lent cells: eight cells to a partition, or sixteen in a buffer of wide rows; rising ids first, then zeros.
#![tactic(auto)]

ghost use Rattle.std.specs.Prelude.{◌≡◌, ◌+◌, ◌-◌, ◌≤◌, ◌<◌, IfSome, unwrap_or, length, take, drop};
ghost use Rattle.cluster.specs.Terms.{buffer_rows, wide_row_cells, wide_cells, row_of, blank, formed};
ghost use Rattle.cell_rows.specs.ModelRows.{ill_formed, id_count, row_ids, row_is_blank};

use cluster::Cluster;

// Whether the cells from `from` up to `to` are zero.
fn zeros(cells: &[u32], from: usize, to: usize) -> bool
    requires { (from ≤ to) × (to ≤ length cells.now) }
    ensures { result ≡ blank (take (to - from) (drop from cells.now)) }
{
    cells[from..to].iter().all(|cell| *cell == 0)
}

// How many ids the row from cell `from` up to `to` has; none where it is not rising ids followed by zeros. After a 0 no id is above the last: so one loop of as many turns for each row looks for rising
// ids and for zeros, and the machine code has each turn by itself.
fn count_ids(cells: &[u32], from: usize, to: usize) -> Option<u32>
    requires { (from ≤ to) × (to ≤ from + wide_row_cells) × (to ≤ length cells.now) }
    ensures { (unwrap_or result ill_formed ≡ id_count (take (to - from) (drop from cells.now))) × IfSome result (λ count. count < ill_formed) }
{
    let mut last = 0;
    let mut count = 0;
    for i in from..to {
        let id = u64::from(cells[i]);
        if id == 0 {
            last = u64::MAX;
        } else {
            if id <= last {
                return None;
            }
            last = id;
            count += 1;
        }
    }
    Some(count)
}

// How many ids row `partition` of the cells has; none where it is not rising ids followed by zeros or not there whole.
pub fn row_ids(cells: &[u32], partition: usize) -> Option<u32>
    ensures { (unwrap_or result ill_formed ≡ row_ids cells.now partition) × IfSome result (λ count. count < ill_formed) }
{
    if Cluster::PARTITIONS <= partition {
        return None;
    }
    let from = partition * Cluster::ROW;
    let to = from + Cluster::ROW;
    if cells.len() < to {
        return None;
    }
    count_ids(cells, from, to)
}

// Whether wide row `partition` of the cells is rising ids followed by zeros.
pub fn wide_row_is_formed(cells: &[u32], partition: usize) -> bool
    requires { (partition < buffer_rows) × (wide_cells ≤ length cells.now) }
    ensures { result ≡ formed (row_of wide_row_cells cells.now partition) }
{
    let from = partition * Cluster::WIDE_ROW;
    count_ids(cells, from, from + Cluster::WIDE_ROW).is_some()
}

// Whether row `partition` of the cells is there whole, and all zeros.
pub fn row_is_blank(cells: &[u32], partition: usize) -> bool
    ensures { result ≡ row_is_blank cells.now partition }
{
    if Cluster::PARTITIONS <= partition {
        return false;
    }
    let from = partition * Cluster::ROW;
    let to = from + Cluster::ROW;
    if cells.len() < to {
        return false;
    }
    zeros(cells, from, to)
}
