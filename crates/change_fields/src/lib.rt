// A change of the nodes, and its field: read from the bytes of a record, and put as bytes.
#![tactic(auto)]

ghost use Rattle.std.specs.Prelude.{◌≡◌, ◌+◌, ◌≤◌, length};
ghost use Rattle.fields.specs.ModelTags.{tags_of};
ghost use Rattle.fields.specs.RecordField.{written};
ghost use Rattle.change_fields.specs.RecordChange.{id_of, change_field, change_tags, change_in, longest_change, reverse_bytes, no_reverse};

use cluster::Node;

// A change of a cluster's nodes.
#[derive(Clone, Copy)]
pub enum Change {
    Add { node: Node },
    Remove { id: u32 },
    Resize { id: u32, capacity: u32 },
}

// The bytes of the field that reverses a change; those past its length are zero.
#[derive(Clone, Copy)]
pub struct Reverse {
    pub len: usize,
    pub bytes: [u8; LONGEST],
}

// The bytes of the longest change's field.
pub const LONGEST: usize = 3 + lengths::NODE;

// The tags of changes.
const ADD: u32 = 20;

const REMOVE: u32 = 21;

const RESIZE: u32 = 22;

// The set of the tags of changes.
pub fn tags() -> u32
    ensures { tags_of result ≡ change_tags }
{
    sets::with(sets::with(sets::with(0, ADD), REMOVE), RESIZE)
}

// The id that a change is about.
#[tactic(auto, unfolding(crate::specs::RecordChange::id_of))]
pub fn id_of(x: Change) -> u32
    ensures { result ≡ id_of x }
{
    match x {
        Change::Add { node } => node.id,
        Change::Remove { id } | Change::Resize { id, .. } => id,
    }
}

// The change in a body that begins at byte `start`, by the field's tag.
#[tactic(auto, unfolding(crate::specs::RecordChange::change_in))]
pub fn change_in(s: &[u8], tag: u8, start: usize) -> Change
    requires { start + 4 ≤ length s.now }
    ensures { result ≡ change_in s.now tag start }
{
    match tag as u32 {
        ADD => Change::Add {
            node: node_bytes::node_at(s, start),
        },
        REMOVE => Change::Remove {
            id: numbers::word_at(s, start),
        },
        _ => Change::Resize {
            id: numbers::word_at(s, start),
            capacity: numbers::word_at(s, start + 4),
        },
    }
}

// No reverse: what a refused change gives.
#[tactic(auto, unfolding(crate::specs::RecordChange::reverse_bytes))]
pub fn no_reverse() -> Reverse
    ensures { result ≡ no_reverse }
{
    Reverse {
        len: 0,
        bytes: [0; LONGEST],
    }
}

// Puts the field of a change to the front of bytes; answers its length.
fn put_change(x: Change, out: &mut [u8]) -> usize
    requires { length out.old ≡ longest_change }
    ensures { (out.new ≡ written out.old 0 (change_field x)) × (result ≡ length (change_field x)) }
{
    match x {
        Change::Add { node } => {
            fields::put_head(out, 0, ADD, lengths::NODE);
            node_bytes::put_node(out, 3, node);
            3 + lengths::NODE
        }
        Change::Remove { id } => {
            fields::put_head(out, 0, REMOVE, lengths::REMOVE);
            numbers::put_word(out, 3, id);
            3 + lengths::REMOVE
        }
        Change::Resize { id, capacity } => {
            fields::put_head(out, 0, RESIZE, lengths::RESIZE);
            numbers::put_word(out, 3, id);
            numbers::put_word(out, 7, capacity);
            3 + lengths::RESIZE
        }
    }
}

// The bytes of a change's field.
pub fn to_bytes(x: Change) -> Reverse
    ensures { result ≡ reverse_bytes (change_field x) }
{
    let mut bytes = [0u8; LONGEST];
    let len = put_change(x, &mut bytes);
    Reverse { len, bytes }
}
