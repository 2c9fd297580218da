// Writing a layout record, from front to back, where it fits.
ghost use Rattle.std.specs.Prelude.{◌≡◌, true, ◌+◌, ◌*◌, ◌^◌, ◌≤◌, ◌<◌, length, take, drop};
ghost use Rattle.cluster.specs.Terms.{most_copies, buffer_rows, layout_cells, row_at, rows_in};
ghost use Rattle.fields.specs.RecordField.{written, over, id_bytes};
ghost use Rattle.layout_rows.specs.RecordLayout.{layout_row_field, layout_row_fields, layout_record};
ghost use Rattle.layout_rows.specs.RecordLayoutFaults.{rows_fit, write_fault};

use cluster::Cluster;
use layout_head::{Numbers, table};
use layout_rows::range;

// Puts the ids in the cells from `from` on, four bytes each.
fn put_ids(out: &mut [u8], at: usize, cells: &[u32], from: usize, count: usize)
    requires { (at + 4 * count ≤ length out.old) × (from + count ≤ length cells.now) }
    ensures { out.new ≡ written out.old at (id_bytes (take count (drop from cells.now))) }
{
    for j in 0..count {
        numbers::put_word(out, at + 4 * j, cells[from + j]);
    }
}

// Puts the field of a row.
fn put_row(out: &mut [u8], at: usize, cells: &[u32], p: usize, count: usize)
    requires { (at + 5 + 4 * count ≤ length out.old) × (layout_cells ≤ length cells.now) × (p < buffer_rows) × (count ≤ most_copies) }
    ensures { out.new ≡ written out.old at (layout_row_field p (take count (row_at cells.now p))) }
{
    fields::put_head(out, at, 10, 2 + 4 * count);
    numbers::put_pair(out, at + 3, p as u32);
    put_ids(out, at + range::ROW, cells, p * Cluster::ROW, count);
}

// Puts the fields of the rows after those of the numbers.
fn put_rows(out: &mut [u8], cells: &[u32], partitions: usize, count: usize)
    requires { (29 + partitions * (5 + 4 * count) ≤ length out.old) × (layout_cells ≤ length cells.now) × (partitions ≤ buffer_rows)
        × (count ≤ most_copies) × (rows_fit cells.now partitions count ≡ true) }
    ensures { out.new ≡ written out.old 29 (layout_row_fields 0 (rows_in partitions cells.now)) }
{
    let mut at = table::HEAD_BYTES;
    for p in 0..partitions {
        put_row(out, at, cells, p, count);
        at += range::ROW + 4 * count;
    }
}

// Puts a record without fault.
pub(crate) fn put_record(numbers: Numbers, cells: &[u32], out: &mut [u8])
    requires { write_fault numbers cells.now (length out.old) ≡ 0 }
    ensures { out.new ≡ over (layout_record numbers (rows_in (2 ^ numbers.bits) cells.now)) out.old }
{
    head_writing::put_numbers(out, numbers);
    put_rows(
        out,
        cells,
        cluster::partitions(numbers.bits),
        numbers.replication as usize,
    );
}
