// Reading the rows of a layout record into cells.
ghost use Rattle.std.specs.Prelude.{◌≡◌, IsOk, [], ◌^◌, ◌≤◌, replicate};
ghost use Rattle.cluster.specs.Terms.{most_bits, most_copies, layout_cells, Layout, cells_of};
ghost use Rattle.layout_rows.specs.RecordLayoutFaults.{end_in, rows_from, read_layout};
ghost use Rattle.layout_record.specs.RecordLayoutAnswer.{read_as, layout_answer};

use fields::reader::Reader;
use fields::{Field, Refused};
use layout_head::{Numbers, reading};

// What is said after the last row: no field is allowed there.
fn ended(bytes: &[u8], at: usize, numbers: Numbers) -> Result<Numbers, Refused>
    ensures { (L : Layout) → read_as result ≡ layout_answer (end_in bytes.now at numbers L) }
{
    if bytes.len() <= at {
        return Ok(numbers);
    }
    Err(fields::field_in(bytes, at, 0, 0).refused())
}

// Reads the rows from byte `from` on into cells that are zero.
fn read_rows(
    bytes: &[u8],
    from: usize,
    numbers: Numbers,
    cells: &mut [u32],
) -> Result<Numbers, Refused>
    requires { (numbers.bits ≤ most_bits) × (1 ≤ numbers.replication) × (numbers.replication ≤ most_copies) × (cells.old ≡ cells_of []) }
    ensures { (read_as result ≡ layout_answer (rows_from (2 ^ numbers.bits) bytes.now from numbers []))
        × (IsOk result → cells.new ≡ cells_of (rows_from (2 ^ numbers.bits) bytes.now from numbers []).layout) }
{
    let partitions = cluster::partitions(numbers.bits);
    let count = numbers.replication as usize;
    let mut r = Reader {
        src: bytes,
        at: from,
    };
    for next in 0..partitions {
        let f = reading::next_field(r.src, r.at, 10, 2 + 4 * count);
        let Field::Body { tag: _, start, len } = f else {
            return Err(f.refused());
        };
        if let Err(refusal) = layout_rows::row_fault(r.src, start, partitions, next, count) {
            return Err(Refused { refusal, at: r.at });
        }
        id_bytes::put_ids(cells, r.src, next, start + 2, count);
        r.at = start + len;
    }
    ended(r.src, r.at, numbers)
}

// Reads a record into cells that are zero.
pub(crate) fn read_into(bytes: &[u8], cells: &mut [u32]) -> Result<Numbers, Refused>
    requires { cells.old ≡ replicate layout_cells 0 }
    ensures { (read_as result ≡ layout_answer (read_layout bytes.now))
        × (IsOk result → cells.new ≡ cells_of (read_layout bytes.now).layout) }
{
    let (numbers, end) = reading::read_head(bytes)?;
    read_rows(bytes, end, numbers, cells)
}
