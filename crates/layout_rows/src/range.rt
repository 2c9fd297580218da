// The faults of what is to be written, and the record's length.
ghost use Rattle.std.specs.Prelude.{◌≡◌, ◌≤◌, ◌<◌, length};
ghost use Rattle.cluster.specs.Terms.{most_bits, most_copies, buffer_rows, layout_cells};
ghost use Rattle.cluster.specs.TermsRefusal.{refusal_of};
ghost use Rattle.layout_rows.specs.RecordLayout.{record_length};
ghost use Rattle.layout_rows.specs.RecordLayoutFaults.{row_fits, rows_fit, write_fault};

use cluster::Cluster;
use cluster::refusal::Refusal;
use layout_head::{Numbers, table};

// The bytes of a row's field before its ids.
pub const ROW: usize = 5;

// The length of a record.
pub fn record_length(bits: u32, replication: u32) -> usize
    requires { (bits ≤ most_bits) × (replication ≤ most_copies) }
    ensures { result ≡ record_length bits replication }
{
    table::HEAD_BYTES + cluster::partitions(bits) * (ROW + 4 * (replication as usize))
}

// Whether one row is as it must be: so many rising ids and then zeros below `partitions`, and zeros from there on.
fn row_fits(cells: &[u32], partitions: usize, replication: u32, p: usize) -> bool
    requires { (layout_cells ≤ length cells.now) × (p < buffer_rows) × (replication ≤ most_copies) }
    ensures { result ≡ row_fits cells.now partitions replication p }
{
    if p < partitions {
        return cell_rows::row_ids(cells, p) == Some(replication);
    }
    cell_rows::row_is_blank(cells, p)
}

// Whether every row is.
fn rows_fit(cells: &[u32], partitions: usize, replication: u32) -> bool
    requires { (layout_cells ≤ length cells.now) × (replication ≤ most_copies) }
    ensures { result ≡ rows_fit cells.now partitions replication }
{
    for p in 0..Cluster::PARTITIONS {
        if !row_fits(cells, partitions, replication, p) {
            return false;
        }
    }
    true
}

// The first fault of what is to be written into so many bytes.
pub fn write_fault(numbers: Numbers, cells: &[u32], room: usize) -> Result<(), Refusal>
    ensures { refusal_of result ≡ write_fault numbers cells.now room }
{
    if cells.len() < Cluster::CELLS {
        return Err(Refusal::Buffer);
    }
    if !table::in_range(numbers) {
        return Err(Refusal::Range);
    }
    if !rows_fit(
        cells,
        cluster::partitions(numbers.bits),
        numbers.replication,
    ) {
        return Err(Refusal::Row);
    }
    if room < record_length(numbers.bits, numbers.replication) {
        return Err(Refusal::Buffer);
    }
    Ok(())
}
