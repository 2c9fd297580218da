// Fields in the bytes of a record: a one-byte tag, a two-byte length and a body.
#![tactic(auto)]

ghost use Rattle.std.specs.Prelude.{◌≡◌, ◌++◌, ◌+◌, ◌≤◌, ◌<◌, length};
ghost use Rattle.fields.specs.ModelTags.{tags_of};
ghost use Rattle.cluster.specs.TermsRefusal.{number_of};
ghost use Rattle.fields.specs.RecordField.{bytes_of, written, head_width, field_at, Within, IsRefused, refusal_of, place_of};

use cluster::refusal::Refusal;

pub mod reader;

// A refusal with the byte at which it is given: what ends a reading.
#[derive(Clone, Copy, PartialEq, Eq)]
pub struct Refused {
    pub refusal: Refusal,
    pub at: usize,
}

// What stands at a byte of a record: a whole field, or a refusal with the byte at which the field begins.
// An enum and no `Result`: the paper has each field's answer taken apart by `let .. else`.
#[derive(Clone, Copy)]
pub enum Field {
    Body { tag: u8, start: usize, len: usize },
    Refused { refusal: Refusal, at: usize },
}

impl Field {
    // What the else of that `let` answers: why the field cannot be taken whole, and where it begins.
    pub fn refused(self) -> Refused
        requires { IsRefused self }
        ensures { (number_of result.refusal ≡ refusal_of self) × (result.at ≡ place_of self) }
    {
        match self {
            Field::Refused { refusal, at } => Refused { refusal, at },
            Field::Body {
                tag: _,
                start: _,
                len: _,
            } => unreachable!(),
        }
    }
}

// Puts the tag and the length of a field.
pub fn put_head(out: &mut [u8], at: usize, tag: u32, len: usize)
    requires { (at + head_width ≤ length out.old) × (len < 65536) }
    ensures { out.new ≡ written out.old at (bytes_of 1 tag ++ bytes_of 2 len) }
{
    numbers::put_byte(out, at, tag);
    numbers::put_pair(out, at + 1, len as u32);
}

// The field at byte `at`, where the tags of the set `allowed` are allowed next; where `exact` is not 0, no other length is legal.
// It looks in this order: three bytes of tag and length, the tag, the length, the body.
pub fn field_in(s: &[u8], at: usize, allowed: u32, exact: usize) -> Field
    ensures { (result ≡ field_at s.now at (tags_of allowed) exact) × Within (length s.now) at (tags_of allowed) exact result }
{
    if !numbers::reaches(s.len(), at, 3) {
        return Field::Refused {
            refusal: Refusal::Cut,
            at,
        };
    }
    let tag = numbers::byte_at(s, at);
    if !sets::member(allowed, tag) {
        return Field::Refused {
            refusal: Refusal::Tag,
            at,
        };
    }
    let len = numbers::pair_at(s, at + 1) as usize;
    if !lengths::is_legal(exact, tag as usize, len) {
        return Field::Refused {
            refusal: Refusal::Length,
            at,
        };
    }
    let start = at + 3;
    if !numbers::reaches(s.len(), start, len) {
        return Field::Refused {
            refusal: Refusal::Cut,
            at,
        };
    }
    Field::Body {
        tag: tag as u8,
        start,
        len,
    }
}

// The number of the refusal of a field that cannot be taken whole; 0 for a whole field.
pub fn refusal_of(f: Field) -> u32
    ensures { result ≡ refusal_of f }
{
    match f {
        Field::Body {
            tag: _,
            start: _,
            len: _,
        } => 0,
        Field::Refused { refusal, at: _ } => refusal.into(),
    }
}

// The byte given with a refusal; 0 for a whole field.
pub fn place_of(f: Field) -> usize
    ensures { result ≡ place_of f }
{
    let Field::Refused { refusal: _, at } = f else {
        return 0;
    };
    at
}
