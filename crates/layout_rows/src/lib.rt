// The rows of a layout record, and their faults: of a row that is read, and of what is to be written.
#![tactic(auto)]

ghost use Rattle.std.specs.Prelude.{◌≡◌, ◌+◌, ◌*◌, ◌≤◌, length};
ghost use Rattle.cluster.specs.TermsRefusal.{refusal_of};
ghost use Rattle.fields.specs.RecordField.{number_at, ids_at};
ghost use Rattle.layout_rows.specs.RecordLayoutFaults.{layout_row_fault};

use cluster::refusal::Refusal;

pub mod range;

// The fault of a row whose body begins at byte `start`: a value outside its range, then a row that is not the next or
// ids that do not rise.
pub fn row_fault(
    bytes: &[u8],
    start: usize,
    partitions: usize,
    next: usize,
    count: usize,
) -> Result<(), Refusal>
    requires { start + 2 + 4 * count ≤ length bytes.now }
    ensures { refusal_of result ≡ layout_row_fault partitions next (number_at bytes.now start 2) (ids_at bytes.now (start + 2) count) }
{
    let partition = numbers::pair_at(bytes, start) as usize;
    if partitions <= partition {
        return Err(Refusal::Range);
    }
    if id_bytes::has_zero(bytes, start + 2, count) {
        return Err(Refusal::Range);
    }
    if partition != next {
        return Err(Refusal::Order);
    }
    if id_bytes::ids_rise(bytes, start + 2, count) {
        Ok(())
    } else {
        Err(Refusal::Order)
    }
}
