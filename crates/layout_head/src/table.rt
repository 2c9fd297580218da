// The numbers before the rows: one table for reading them, for the test of their ranges and for writing them.
ghost use Rattle.std.specs.Prelude.{◌≡◌, ◌<◌, length, set};
ghost use Rattle.layout_head.specs.RecordHead.{head_table, entry_at, holds, numbers_in, numbers_from, in_range};

use super::Numbers;
use cluster::Cluster;

// What the record has of one number: the tag of its field, the bytes of its body, and its range.
#[derive(Clone, Copy)]
pub struct Entry {
    pub tag: u32,
    pub width: usize,
    pub least: u32,
    pub most: u32,
}

// The fields before the rows, in their order.
pub const HEAD: [Entry; 6] = [
    // 1 bits.
    Entry {
        tag: 1,
        width: 1,
        least: 0,
        most: Cluster::BITS,
    },
    // 2 replication.
    Entry {
        tag: 2,
        width: 1,
        least: 1,
        most: Cluster::REPLICATION,
    },
    // 6 size.
    Entry {
        tag: 6,
        width: 4,
        least: 1,
        most: Cluster::SIZE,
    },
    // 7 sent.
    Entry {
        tag: 7,
        width: 2,
        least: 0,
        most: Cluster::SENT,
    },
    // 8 verdict.
    Entry {
        tag: 8,
        width: 1,
        least: 0,
        most: Cluster::VERDICT,
    },
    // 9 improvements.
    Entry {
        tag: 9,
        width: 2,
        least: 0,
        most: Cluster::IMPROVEMENTS,
    },
];

// The bytes of the fields before the rows.
pub const HEAD_BYTES: usize = 29;

impl Entry {
    // The entry of a number.
    pub fn at(i: usize) -> Entry
        requires { i < length head_table }
        ensures { result ≡ entry_at i }
    {
        HEAD[i]
    }

    // Whether a number is in the range of its entry.
    pub fn holds(self, value: u32) -> bool
        ensures { result ≡ holds self value }
    {
        self.least <= value && value <= self.most
    }
}

// The numbers in the order of their fields.
pub fn numbers_in(n: Numbers) -> [u32; 6]
    ensures { result ≡ numbers_in n }
{
    [
        n.bits,
        n.replication,
        n.size,
        n.sent,
        n.verdict,
        n.improvements,
    ]
}

// And back.
pub fn numbers_from(values: [u32; 6]) -> Numbers
    ensures { result ≡ numbers_from values }
{
    Numbers {
        bits: values[0],
        replication: values[1],
        size: values[2],
        sent: values[3],
        verdict: values[4],
        improvements: values[5],
    }
}

// The numbers with another one at entry i.
pub fn with(n: Numbers, i: usize, value: u32) -> Numbers
    requires { i < length head_table }
    ensures { result ≡ numbers_from (set (numbers_in n) i value) }
{
    let mut values = numbers_in(n);
    values[i] = value;
    numbers_from(values)
}

// Whether each number is in its range.
pub fn in_range(n: Numbers) -> bool
    ensures { result ≡ in_range n }
{
    let values = numbers_in(n);
    for i in 0..HEAD.len() {
        if !Entry::at(i).holds(values[i]) {
            return false;
        }
    }
    true
}
