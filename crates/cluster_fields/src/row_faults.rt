// The faults of a former row: the partition or an id out of range before the partition or the ids not rising.
ghost use Rattle.std.specs.Prelude.{◌≡◌, ◌||◌, not, cond, ◌+◌, ◌-◌, ◌/◌, ◌^◌, ◌≤◌, ltb, leb, length};
ghost use Rattle.cluster.specs.Terms.{most_bits, mem, rising};
ghost use Rattle.cluster.specs.TermsRefusal.{refusal_of};
ghost use Rattle.fields.specs.RecordField.{number_at, ids_at};

use cluster::refusal::Refusal;

// Of a former row in a body of so many bytes, where the partitions before `next` are passed.
pub fn row_fault(
    bytes: &[u8],
    bits: u32,
    next: usize,
    start: usize,
    len: usize,
) -> Result<(), Refusal>
    requires { (bits ≤ most_bits) × (2 ≤ len) × (start + 2 ≤ length bytes.now) }
    ensures { refusal_of result ≡ cond (leb (2 ^ bits) (number_at bytes.now start 2) || mem 0 (ids_at bytes.now (start + 2) ((len - 2) / 4))) 4
        (cond (ltb (number_at bytes.now start 2) next || not (rising (ids_at bytes.now (start + 2) ((len - 2) / 4)))) 5 0) }
{
    let count = (len - 2) / 4;
    let partition = numbers::pair_at(bytes, start) as usize;
    if cluster::partitions(bits) <= partition {
        return Err(Refusal::Range);
    }
    // Ids that rise have no 0 among them, so those of a row without fault are scanned once.
    if id_bytes::ids_rise(bytes, start + 2, count) {
        if partition < next {
            return Err(Refusal::Order);
        }
        return Ok(());
    }
    if id_bytes::has_zero(bytes, start + 2, count) {
        return Err(Refusal::Range);
    }
    Err(Refusal::Order)
}
