// A reader of fields: it carries the record and its position together.
ghost use Rattle.std.specs.Prelude.{◌≡◌, length};
ghost use Rattle.fields.specs.ModelTags.{tags_of};
ghost use Rattle.fields.specs.RecordField.{field_at, Within};

use super::{Field, field_in};

// A lent record and the byte at which its next field begins.
#[derive(Clone, Copy)]
pub struct Reader<'a> {
    pub src: &'a [u8],
    pub at: usize,
}

// The field at which the reader stands; `allowed` and `exact` as for `field_in`.
pub fn next<'a>(r: Reader<'a>, allowed: u32, exact: usize) -> Field
    ensures { (result ≡ field_at r.entry.src.now r.entry.at (tags_of allowed) exact)
        × Within (length r.entry.src.now) r.entry.at (tags_of allowed) exact result }
{
    field_in(r.src, r.at, allowed, exact)
}
