// Makes changes that it reads from standard input, each on a line of its own: a name, a `=`, a letter for the cluster, and hexadecimal digits, two
// for the byte at which the change begins (ff for the largest number of 64 bits) and the others for the record. It prints for each the name, the
// refusal, the byte that was answered, the reverse, and the nodes afterwards. The clusters have junk in slots that are not in use.
#![tactic(auto)]

use cluster::{Cluster, Node};
use std::io;

mod print;

fn node(id: u32, zone: u16, capacity: u32, ceiling: u16) -> Node {
    Node {
        id,
        zone,
        capacity,
        ceiling,
    }
}

// Nodes 1/1/100/256 2/1/70/7 5/2/50/0, and junk in the first slot that is not in use and, a ceiling alone, in the last.
fn three() -> Cluster {
    let mut c = Cluster::none();
    c.bits = 1;
    c.replication = 3;
    c.redundancy = 2;
    c.count = 3;
    c.nodes[0] = node(1, 1, 100, 256);
    c.nodes[1] = node(2, 1, 70, 7);
    c.nodes[2] = node(5, 2, 50, 0);
    c.nodes[3] = node(9, 9, 9, 257);
    c.nodes[31] = node(0, 0, 0, 65535);
    c
}

// The same with a ceiling above 256.
fn high() -> Cluster {
    let mut c = three();
    c.nodes[2].ceiling = 257;
    c
}

// The first with ids that do not rise.
fn falling() -> Cluster {
    let mut c = three();
    c.nodes[2].id = 2;
    c
}

// The same with a ceiling above 256.
fn high_falling() -> Cluster {
    let mut c = falling();
    c.nodes[0].ceiling = 65535;
    c
}

// The ids that do not rise, with a redundancy above the replication.
fn wide() -> Cluster {
    let mut c = falling();
    c.redundancy = 4;
    c
}

// The same with one node too many.
fn many() -> Cluster {
    let mut c = wide();
    c.count = 33;
    c
}

// As many nodes as a cluster has at most: ids 2, 4 and on to 64, ceilings 0, 1 and on to 31.
fn full() -> Cluster {
    let mut c = Cluster::none();
    c.count = Cluster::NODES;
    for b in 0..Cluster::NODES {
        c.nodes[b] = node(2 * b as u32 + 2, 0, 1, b as u16);
    }
    c
}

// The cluster of a letter; for any other it is the one that the last change left.
fn cluster_of(letter: u8, last: Cluster) -> Cluster {
    match letter {
        b'T' => three(),
        b'H' => high(),
        b'F' => falling(),
        b'G' => high_falling(),
        b'W' => wide(),
        b'M' => many(),
        b'U' => full(),
        b'N' => Cluster::none(),
        _ => last,
    }
}

// A change, what is answered, and the cluster that is left; of as many nodes as there can be, not the nodes.
fn change(rt: &impl Print, c: Cluster, bytes: &[u8], at: usize) -> io::Result<Cluster> {
    let mut own = c;
    match changes::change(&mut own, bytes, at) {
        Ok(done) => {
            print::answer(rt, 0, done.next)?;
            print::reverse(rt, done.reverse)?;
        }
        Err(refusal) => {
            print::answer(rt, refusal.into(), at)?;
            print::reverse(rt, change_fields::no_reverse())?;
        }
    }
    if c.count < Cluster::NODES {
        print::nodes(rt, own)?;
    }
    Ok(own)
}

// The change of a line: a letter, a byte, a record.
fn change_line(rt: &impl Print, spelled: &[u8], last: Cluster) -> io::Result<Cluster> {
    let Some((letter, digits)) = spelled.split_first() else {
        return Ok(last);
    };
    let c = cluster_of(*letter, last);
    let mut bytes = [0u8; 64];
    let n = hex_digits::decode(digits, 0, &mut bytes);
    if n == 0 {
        return Ok(last);
    }
    let at = numbers::byte_at(&bytes, 0) as usize;
    if at == 255 {
        return change(rt, c, &bytes[1..n], 18446744073709551615);
    }
    change(rt, c, &bytes[1..n], at)
}

fn run(rt: &impl Print, text: &[u8]) -> io::Result<()> {
    let mut last = Cluster::none();
    let mut start = 0;
    for (at, b) in text.iter().enumerate() {
        if *b == b'=' {
            rt.write_all(&text[start..at + 1])?;
            last = change_line(rt, &text[at + 1..], last)?;
        }
        if *b == b'\n' {
            start = at + 1;
        }
    }
    Ok(())
}

fn main(rt: HostRuntime) -> io::Result<()> {
    let mut text = [0u8; 65536];
    let n = input::read_full(&mut rt.stdin(), &mut text)?;
    run(&rt, &text[..n])
}
