// Writing the fields before the rows of a layout record, from front to back, where they fit.
#![tactic(auto)]

ghost use Rattle.std.specs.Prelude.{◌≡◌, ◌⊎◌, ◌+◌, ◌≤◌, ◌<◌, length};
ghost use Rattle.fields.specs.RecordField.{bytes_of, written, field};
ghost use Rattle.layout_head.specs.RecordHead.{head_fields};

use layout_head::table::Entry;
use layout_head::{Numbers, table};

// Puts a field of one number of one, two or four bytes.
fn put_number(out: &mut [u8], at: usize, tag: u32, width: usize, value: u32)
    requires { (at + 3 + width ≤ length out.old) × (tag < 256) × ((width ≡ 1) ⊎ ((width ≡ 2) ⊎ (width ≡ 4))) }
    ensures { out.new ≡ written out.old at (field tag (bytes_of width value)) }
{
    fields::put_head(out, at, tag, width);
    if width == 1 {
        numbers::put_byte(out, at + 3, value);
        return;
    }
    if width == 2 {
        numbers::put_pair(out, at + 3, value);
        return;
    }
    numbers::put_word(out, at + 3, value);
}

// Puts the fields before the rows.
pub fn put_numbers(out: &mut [u8], n: Numbers)
    requires { 29 ≤ length out.old }
    ensures { out.new ≡ written out.old 0 (head_fields n) }
{
    let values = table::numbers_in(n);
    let mut at = 0;
    for i in 0..table::HEAD.len() {
        let entry = Entry::at(i);
        put_number(out, at, entry.tag, entry.width, values[i]);
        at += 3 + entry.width;
    }
}
