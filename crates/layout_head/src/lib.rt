// What stands before the rows of a layout record: its numbers, their table, and their fields, read.
#![tactic(auto)]

ghost use Rattle.std.specs.Prelude.{◌≡◌};
ghost use Rattle.layout_head.specs.RecordHeadFaults.{no_numbers};

pub mod reading;
pub mod table;

// The numbers of a layout record.
#[derive(Clone, Copy)]
pub struct Numbers {
    pub bits: u32,
    pub replication: u32,
    pub size: u32,
    pub sent: u32,
    pub verdict: u32,
    pub improvements: u32,
}

impl Numbers {
    // The numbers of a refused reading.
    pub fn none() -> Numbers
        ensures { result ≡ no_numbers }
    {
        Numbers {
            bits: 0,
            replication: 0,
            size: 0,
            sent: 0,
            verdict: 0,
            improvements: 0,
        }
    }
}
