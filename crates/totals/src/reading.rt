// The totals before the rows of a layout record, read: where they end, whether they are those of the rows, and what they tell of an id.
ghost use Rattle.std.specs.Prelude.{◌≡◌, [], ◌∷◌, true, ℕ, ◌+◌, ◌-◌, ◌*◌, ◌/◌, ◌%◌, ◌≤◌, ◌<◌, length};
ghost use Rattle.cluster.specs.Terms.{row_cells, buffer_rows, row_at, formed, rows_in};
ghost use Rattle.cluster.specs.TermsRefusal.{refusal_of};
ghost use Rattle.fields.specs.RecordField.{field_at, Within};
ghost use Rattle.totals.specs.RecordTotals.{totals_of};
ghost use Rattle.totals.specs.RecordTotalsFaults.{total_at, total_bytes, totals_at, total_fault, row_begins, totals_from, copies_for, same_totals};
ghost use Rattle.totals.specs.ModelTotalsRead.{totals_say, EndsIn};

use super::{copies_of, gather, least_above};
use cluster::Cluster;
use cluster::refusal::Refusal;
use fields::reader::Reader;
use fields::{Field, Refused};

// The most copies that a total tells: one in each row of a buffer.
const MOST: u32 = 256;

// Whether a row begins at a byte: the three bytes of its tag and length are there, and the tag is 10.
fn row_begins(bytes: &[u8], at: usize) -> bool
    ensures { result ≡ row_begins bytes.now at }
{
    numbers::reaches(bytes.len(), at, 3) && numbers::byte_at(bytes, at) == 10
}

// The fault of the total whose body begins at byte `start`: a value outside its range, then an id not above the last one.
fn total_fault(bytes: &[u8], start: usize, last: u32) -> Result<(), Refusal>
    requires { start + 6 ≤ length bytes.now }
    ensures { refusal_of result ≡ total_fault last (total_at bytes.now start) }
{
    let id = numbers::word_at(bytes, start);
    let copies = numbers::pair_at(bytes, start + 4);
    if id == 0 || copies == 0 || MOST < copies {
        return Err(Refusal::Range);
    }
    if id <= last {
        return Err(Refusal::Order);
    }
    Ok(())
}

// The field at a byte, which must be a total.
fn next_total(bytes: &[u8], at: usize) -> Field
    ensures { (result ≡ field_at bytes.now at (11 ∷ []) 0) × Within (length bytes.now) at (11 ∷ []) 0 result }
{
    fields::field_in(bytes, at, sets::with(0, 11), 0)
}

// Reads the totals from byte `from` on, up to the first row or the record's end; answers the byte after them.
pub fn read_totals(bytes: &[u8], from: usize) -> Result<usize, Refused>
    ensures { (totals_say bytes.now from result ≡ totals_from (length bytes.now) bytes.now from 0 [])
        × EndsIn (length bytes.now) from result }
{
    let mut r = Reader {
        src: bytes,
        at: from,
    };
    let mut last = 0;
    // A `while`: the record's bytes decide where the next field begins.
    while r.at < r.src.len() {
        if row_begins(r.src, r.at) {
            return Ok(r.at);
        }
        let f = next_total(r.src, r.at);
        let Field::Body { tag: _, start, len } = f else {
            return Err(f.refused());
        };
        if let Err(refusal) = total_fault(r.src, start, last) {
            return Err(Refused { refusal, at: r.at });
        }
        last = numbers::word_at(r.src, start);
        r.at = start + len;
    }
    Ok(r.at)
}

// Whether the totals from byte `from` up to `end` are those of the rows in the cells: each id in turn, with its copies, and no other.
pub fn totals_match(bytes: &[u8], from: usize, end: usize, cells: &[u32], partitions: usize) -> bool
    requires { (from ≤ end) × (end ≤ length bytes.now) × ((end - from) % total_bytes ≡ 0) × (partitions ≤ buffer_rows)
        × (partitions * row_cells ≤ length cells.now) × ((p : ℕ) → p < partitions → formed (row_at cells.now p) ≡ true) }
    ensures { result ≡ same_totals (totals_at bytes.now from ((end - from) / total_bytes)) (totals_of (rows_in partitions cells.now)) }
{
    let mut ids = [0u32; Cluster::CELLS];
    let count = gather(cells, partitions, &mut ids);
    let mut last = 0;
    for at in (from..end).step_by(9) {
        let id = least_above(&ids, count, last);
        if id == 0 {
            return false;
        }
        let copies = copies_of(cells, partitions, id);
        if numbers::word_at(bytes, at + 3) != id {
            return false;
        }
        if numbers::pair_at(bytes, at + 7) != copies {
            return false;
        }
        last = id;
    }
    least_above(&ids, count, last) == 0
}

// The copies that the totals from byte `from` up to `end` tell of an id; 0 for an id without a field.
pub fn copies_told(bytes: &[u8], from: usize, end: usize, id: u32) -> u32
    requires { (from ≤ end) × (end ≤ length bytes.now) × ((end - from) % total_bytes ≡ 0) }
    ensures { result ≡ copies_for (totals_at bytes.now from ((end - from) / total_bytes)) id }
{
    for at in (from..end).step_by(9) {
        if numbers::word_at(bytes, at + 3) == id {
            return numbers::pair_at(bytes, at + 7);
        }
    }
    0
}
