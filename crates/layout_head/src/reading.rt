// Reading the fields before the rows: one number each.
ghost use Rattle.std.specs.Prelude.{◌≡◌, ◌⊎◌, [], ◌∷◌, ◌<◌, length};
ghost use Rattle.fields.specs.RecordField.{number_at, Within};
ghost use Rattle.layout_head.specs.ModelReading.{head_says};
ghost use Rattle.layout_head.specs.RecordHead.{head_table};
ghost use Rattle.layout_head.specs.RecordHeadFaults.{next_field, head_from};

use super::table::Entry;
use super::{Numbers, table};
use cluster::refusal::Refusal;
use fields::reader::Reader;
use fields::{Field, Refused};

// The field at a byte, which must have this tag; the record must not end there.
pub fn next_field(bytes: &[u8], at: usize, tag: u32, exact: usize) -> Field
    requires { tag < 32 }
    ensures { (result ≡ next_field bytes.now at tag exact) × Within (length bytes.now) at (tag ∷ []) exact result }
{
    if bytes.len() <= at {
        return Field::Refused {
            refusal: Refusal::Missing,
            at: bytes.len(),
        };
    }
    fields::field_in(bytes, at, sets::with(0, tag), exact)
}

// The number in a body of one, two or four bytes.
fn number_at(bytes: &[u8], start: usize, len: usize) -> u32
    requires { (len ≡ 1) ⊎ ((len ≡ 2) ⊎ (len ≡ 4)) }
    ensures { result ≡ number_at bytes.now start len }
{
    if len == 1 {
        return numbers::byte_at(bytes, start);
    }
    if len == 2 {
        return numbers::pair_at(bytes, start);
    }
    numbers::word_at(bytes, start)
}

// Reads the fields before the rows, one after the other: the numbers, and the byte after them.
pub fn read_head(bytes: &[u8]) -> Result<(Numbers, usize), Refused>
    ensures { head_says result ≡ head_from head_table bytes.now 0 [] }
{
    let mut r = Reader { src: bytes, at: 0 };
    let mut numbers = Numbers::none();
    for i in 0..table::HEAD.len() {
        let entry = Entry::at(i);
        let f = next_field(r.src, r.at, entry.tag, 0);
        let Field::Body { tag: _, start, len } = f else {
            return Err(f.refused());
        };
        let value = number_at(r.src, start, len);
        if !entry.holds(value) {
            return Err(Refused {
                refusal: Refusal::Range,
                at: r.at,
            });
        }
        numbers = table::with(numbers, i, value);
        r.at = start + len;
    }
    Ok((numbers, r.at))
}
