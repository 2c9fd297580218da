// The ids of a row in the bytes of a record, four bytes each: scanned, where a missing id counts as 0, and put into cells.
#![tactic(auto)]

ghost use Rattle.std.specs.Prelude.{◌≡◌, ◌+◌, ◌-◌, ◌*◌, ◌/◌, ◌≤◌, length};
ghost use Rattle.cells.specs.ModelCells.{put};
ghost use Rattle.cluster.specs.Terms.{row_cells, mem, rising};
ghost use Rattle.numbers.specs.RecordNumber.{number_at};
ghost use Rattle.id_bytes.specs.RecordIds.{ids_at};

use cluster::Cluster;
use numbers::word_in;

// How many whole ids a record of n bytes has from byte `from` on.
fn ids_in(n: usize, from: usize) -> usize
    ensures { result ≡ (n - from) / 4 }
{
    n.saturating_sub(from) / 4
}

// Whether one of the ids from byte `from` on is 0.
pub fn has_zero(bytes: &[u8], from: usize, count: usize) -> bool
    ensures { result ≡ mem 0 (ids_at bytes.now from count) }
{
    if ids_in(bytes.len(), from) < count {
        return true;
    }
    for j in 0..count {
        if word_in(bytes, from + 4 * j) == 0 {
            return true;
        }
    }
    false
}

// Whether the ids from byte `from` on rise.
pub fn ids_rise(bytes: &[u8], from: usize, count: usize) -> bool
    ensures { result ≡ rising (ids_at bytes.now from count) }
{
    if ids_in(bytes.len(), from) < count {
        return false;
    }
    let mut last = 0;
    for j in 0..count {
        let id = word_in(bytes, from + 4 * j);
        if id <= last {
            return false;
        }
        last = id;
    }
    true
}

// Puts the ids from byte `from` on into the cells of a row.
pub fn put_ids(cells: &mut [u32], bytes: &[u8], row: usize, from: usize, count: usize)
    requires { (row * row_cells + count ≤ length cells.old) × (from + 4 * count ≤ length bytes.now) }
    ensures { cells.new ≡ put (row * row_cells) (λ j. number_at bytes.now (from + 4 * j) 4) count cells.old }
{
    for j in 0..count {
        cells[row * Cluster::ROW + j] = word_in(bytes, from + 4 * j);
    }
}
