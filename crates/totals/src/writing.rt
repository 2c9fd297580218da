// The totals of a layout record, counted and written.
ghost use Rattle.std.specs.Prelude.{◌≡◌, true, ℕ, ◌+◌, ◌*◌, ◌≤◌, ◌<◌, ◌^◌, length};
ghost use Rattle.cluster.specs.Terms.{row_cells, buffer_rows, row_at, formed, rows_in};
ghost use Rattle.fields.specs.RecordField.{written};
ghost use Rattle.totals.specs.RecordTotals.{total, ids_named, totals_of, total_field, total_fields};
ghost use Rattle.totals.specs.RecordTotalsFaults.{total_bytes};

use super::{copies_of, gather, least_above};
use cluster::Cluster;

// How many different ids the rows of the first partitions name.
pub fn count_ids(cells: &[u32], partitions: usize) -> usize
    requires { (partitions ≤ buffer_rows) × (partitions * row_cells ≤ length cells.now) × ((p : ℕ) → p < partitions → formed (row_at cells.now p) ≡ true) }
    ensures { (result ≡ length (ids_named (rows_in partitions cells.now))) × (result < 2 ^ 32) }
{
    let mut ids = [0u32; Cluster::CELLS];
    let count = gather(cells, partitions, &mut ids);
    let mut n = 0;
    let mut last = 0;
    // A `loop`: each id is found from the one before it, until none is above.
    loop {
        let id = least_above(&ids, count, last);
        if id == 0 {
            return n;
        }
        n += 1;
        last = id;
    }
}

// Puts the field of a total.
fn put_total(out: &mut [u8], at: usize, id: u32, copies: u32)
    requires { at + total_bytes ≤ length out.old }
    ensures { out.new ≡ written out.old at (total_field (total id copies)) }
{
    fields::put_head(out, at, 11, 6);
    numbers::put_word(out, at + 3, id);
    numbers::put_pair(out, at + 7, copies);
}

// Puts the totals of the rows from byte `from` on, by rising id; answers the byte after them.
pub fn put_totals(out: &mut [u8], from: usize, cells: &[u32], partitions: usize) -> usize
    requires { (partitions ≤ buffer_rows) × (partitions * row_cells ≤ length cells.now) × ((p : ℕ) → p < partitions → formed (row_at cells.now p) ≡ true)
        × (from + total_bytes * length (ids_named (rows_in partitions cells.now)) ≤ length out.old) }
    ensures { (result ≡ from + total_bytes * length (ids_named (rows_in partitions cells.now)))
        × (out.new ≡ written out.old from (total_fields (totals_of (rows_in partitions cells.now)))) }
{
    let mut ids = [0u32; Cluster::CELLS];
    let count = gather(cells, partitions, &mut ids);
    let mut last = 0;
    let mut at = from;
    // A `loop`, as above.
    loop {
        let id = least_above(&ids, count, last);
        if id == 0 {
            return at;
        }
        let copies = copies_of(cells, partitions, id);
        put_total(out, at, id, copies);
        last = id;
        at += 9;
    }
}
