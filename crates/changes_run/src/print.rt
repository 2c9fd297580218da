// Lines of standard output.
use change_fields::Reverse;
use cluster::Cluster;
use std::io;

// A number after a text.
fn after(rt: &impl Print, before: &str, n: u64) -> io::Result<()> {
    print!(rt; "{before}{n}")
}

// The bytes of a reverse, as many as its length says, and whether one past it is not zero.
pub fn reverse(rt: &impl Print, r: Reverse) -> io::Result<()> {
    let mut left = false;
    for (i, byte) in r.bytes.iter().enumerate() {
        if i < r.len {
            after(rt, " ", *byte as u64)?;
        } else if *byte != 0 {
            left = true;
        }
    }
    if left {
        print!(rt; " and bytes past it")?;
    }
    println!(rt; "")
}

// The nodes in use, and whether another slot is not zero.
pub fn nodes(rt: &impl Print, c: Cluster) -> io::Result<()> {
    print!(rt; " ")?;
    let mut left = false;
    for (b, node) in c.nodes.iter().enumerate() {
        if b < c.count {
            after(rt, " ", node.id as u64)?;
            after(rt, "/", node.zone as u64)?;
            after(rt, "/", node.capacity as u64)?;
            after(rt, "/", node.ceiling as u64)?;
        } else if node.id as u64 + node.zone as u64 + node.capacity as u64 + node.ceiling as u64
            != 0
        {
            left = true;
        }
    }
    if left {
        print!(rt; " and slots not in use that are not zero")?;
    }
    println!(rt; "")
}

// A refusal and the byte that was answered.
pub fn answer(rt: &impl Print, refusal: u32, byte: usize) -> io::Result<()> {
    print!(rt; "{refusal}")?;
    after(rt, " ", byte as u64)?;
    print!(rt; ", reverse")
}
