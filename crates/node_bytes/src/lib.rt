// The bytes of a node: read from a record, and put into one.
#![tactic(auto)]

ghost use Rattle.std.specs.Prelude.{◌≡◌};
ghost use Rattle.fields.specs.RecordField.{written, node_bytes, node_at_byte};

use cluster::Node;

// The node in its bytes; all its numbers are 0 where the record does not have them all.
#[tactic(auto, unfolding(numbers::specs::RecordNumber::has))]
pub fn node_at(s: &[u8], at: usize) -> Node
    ensures { result ≡ node_at_byte s.now at }
{
    if numbers::reaches(s.len(), at, lengths::NODE) {
        Node {
            id: numbers::word_at(s, at),
            zone: numbers::pair_at(s, at + 4) as u16,
            capacity: numbers::word_at(s, at + 6),
            ceiling: numbers::pair_at(s, at + 10) as u16,
        }
    } else {
        Node::NONE
    }
}

// Writes the bytes of a node; nothing where the buffer does not have them all.
#[tactic(auto, unfolding(numbers::specs::RecordNumber::has))]
pub fn put_node(out: &mut [u8], at: usize, node: Node)
    ensures { out.new ≡ written out.old at (node_bytes node) }
{
    if numbers::reaches(out.len(), at, lengths::NODE) {
        numbers::put_word(out, at, node.id);
        numbers::put_pair(out, at + 4, node.zone as u32);
        numbers::put_word(out, at + 6, node.capacity);
        numbers::put_pair(out, at + 10, node.ceiling as u32);
    }
}
