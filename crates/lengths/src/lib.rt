// The legal lengths of the bodies of a record's fields, by tag.
#![tactic(auto)]

ghost use Rattle.std.specs.Prelude.{◌≡◌, ℕ, ◌<◌};
ghost use Rattle.lengths.specs.RecordLengths.{rule_of, legal_as};

// The bytes of a node: id 4, zone 2, capacity 4, ceiling 2.
pub const NODE: usize = 12;
// The bytes of a removal: id 4.
pub const REMOVE: usize = 4;
// The bytes of a change of capacity: id 4, capacity 4.
pub const RESIZE: usize = 8;

// The tag of a former row.
const FORMER_ROW: usize = 5;

// How many tags the table has rules for, tag 0 counted in.
const TAGS: usize = 23;

// The legal lengths of a body: from the least to the greatest, in steps.
#[derive(Clone, Copy)]
pub struct Rule {
    pub least: usize,
    pub greatest: usize,
    pub step: usize,
}

// No length is legal.
const NONE: Rule = Rule {
    least: 1,
    greatest: 0,
    step: 1,
};

// A number of one byte.
const ONE_BYTE: Rule = Rule {
    least: 1,
    greatest: 1,
    step: 1,
};

// A number of two bytes.
const TWO_BYTES: Rule = Rule {
    least: 2,
    greatest: 2,
    step: 1,
};

// A node, in the cluster or to be added.
const ONE_NODE: Rule = Rule {
    least: NODE,
    greatest: NODE,
    step: 1,
};

// A row: partition 2, one to eight ids.
const ROW: Rule = Rule {
    least: 6,
    greatest: 34,
    step: 4,
};

// The legal lengths by tag. There is no tag 0.
const LEGAL: [Rule; TAGS] = [
    // 0: none.
    NONE,
    // 1 bits.
    ONE_BYTE,
    // 2 replication.
    ONE_BYTE,
    // 3 redundancy.
    ONE_BYTE,
    // 4 node.
    ONE_NODE,
    // 5 former row.
    ROW,
    // 6 size.
    Rule {
        least: 4,
        greatest: 4,
        step: 1,
    },
    // 7 sent.
    TWO_BYTES,
    // 8 verdict.
    ONE_BYTE,
    // 9 improvements.
    TWO_BYTES,
    // 10 row.
    ROW,
    // 11 to 19: none.
    NONE,
    NONE,
    NONE,
    NONE,
    NONE,
    NONE,
    NONE,
    NONE,
    NONE,
    // 20 a node to be added.
    ONE_NODE,
    // 21 a node to be removed.
    Rule {
        least: REMOVE,
        greatest: REMOVE,
        step: 1,
    },
    // 22 a node to be resized.
    Rule {
        least: RESIZE,
        greatest: RESIZE,
        step: 1,
    },
];

// The rule of a tag; a tag that the table does not have has no legal length.
#[tactic(auto, unfolding(crate::specs::RecordLengths::rule_of))]
fn rule_of(tag: usize) -> Rule
    ensures { result ≡ rule_of tag }
{
    if tag < TAGS { LEGAL[tag] } else { NONE }
}

// Whether a body of this length is legal by the rule of its tag and, where `exact` is not 0, of that length.
#[tactic(auto, unfolding(crate::specs::RecordLengths::legal_as, crate::specs::RecordLengths::legal))]
fn meets(rule: Rule, exact: usize, len: usize) -> bool
    requires { 0 < rule.step }
    ensures { (tag : ℕ) → rule ≡ rule_of tag → result ≡ legal_as exact tag len }
{
    rule.least <= len
        && len <= rule.greatest
        && (len - rule.least) % rule.step == 0
        && (exact == 0 || len == exact)
}

// Whether a body of this length is legal for this tag and, where `exact` is not 0, of that length. Most fields are rows, and a rule that is known
// spares the machine code a division, and a copy of the table.
pub fn is_legal(exact: usize, tag: usize, len: usize) -> bool
    ensures { result ≡ legal_as exact tag len }
{
    if tag == FORMER_ROW {
        return meets(ROW, exact, len);
    }
    meets(rule_of(tag), exact, len)
}
