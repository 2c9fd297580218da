// Reads a cluster record from standard input, plans the cluster, and prints the plan or the refusal.
#![tactic(auto)]

use cluster::Cluster;
use std::io;

mod print;

// The bytes that are read at most: more than the longest record that is accepted, so a longer one is decided within them.
const RECORD: usize = 11000;
// The improvements allowed: so many always finish.
const ALLOWANCE: u16 = Cluster::IMPROVEMENTS as u16;

// Plans a cluster from its former layout.
fn plan(rt: &impl Print, c: Cluster, former: &[u32]) -> io::Result<()> {
    let mut assignment = [0u32; Cluster::CELLS];
    let mut scratch = [0u32; Cluster::SCRATCH];
    match planner::plan(c, former, ALLOWANCE, &mut assignment, &mut scratch) {
        Ok(made) => {
            print::numbers(rt, made)?;
            print::rows(rt, c.bits, &assignment)
        }
        Err(refusal) => print::refused(rt, refusal),
    }
}

// Plans the cluster of a record.
fn run(rt: &impl Print, bytes: &[u8]) -> io::Result<()> {
    let mut former = [0u32; Cluster::CELLS];
    match cluster_record::read_cluster(bytes, &mut former) {
        Ok(c) => plan(rt, c, &former),
        Err(refused) => print::refused(rt, refused.refusal),
    }
}

fn main(rt: HostRuntime) -> io::Result<()> {
    let mut bytes = [0u8; RECORD];
    let n = input::read_full(&mut rt.stdin(), &mut bytes)?;
    run(&rt, &bytes[..n])
}
