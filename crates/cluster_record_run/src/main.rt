// Reads cluster records from standard input, each on a line of its own as a name, a `=` and hexadecimal digits, and prints
// for each the name, the refusal, the byte, the number of nodes and the first former cell, which was lent as 7.
#![tactic(auto)]

use cluster::Cluster;
use fields::Refused;
use std::io;

fn print(rt: &impl Print, read: Result<Cluster, Refused>, cell: u32) -> io::Result<()> {
    match read {
        Ok(c) => println!(rt; "0 0 {} {cell}", c.count),
        Err(refused) => println!(rt; "{} {} 0 {cell}", u32::from(refused.refusal), refused.at),
    }
}

fn show(rt: &impl Print, bytes: &[u8]) -> io::Result<()> {
    let mut former = [7u32; Cluster::CELLS];
    let read = cluster_record::read_cluster(bytes, &mut former);
    print(rt, read, former[0])
}

// The same with one cell too few.
fn show_short(rt: &impl Print, bytes: &[u8]) -> io::Result<()> {
    let mut former = [7u32; 2047];
    let read = cluster_record::read_cluster(bytes, &mut former);
    print(rt, read, former[0])
}

fn show_digits(rt: &impl Print, digits: &[u8]) -> io::Result<()> {
    let mut bytes = [0u8; 1024];
    let n = hex_digits::decode(digits, 0, &mut bytes);
    show(rt, &bytes[..n])
}

fn run(rt: &impl Print, text: &[u8]) -> io::Result<()> {
    let mut start = 0;
    for (at, b) in text.iter().enumerate() {
        if *b == b'=' {
            rt.write_all(&text[start..at + 1])?;
            show_digits(rt, &text[at + 1..])?;
        }
        if *b == b'\n' {
            start = at + 1;
        }
    }
    Ok(())
}

fn main(rt: HostRuntime) -> io::Result<()> {
    print!(rt; "short buffer, empty record=")?;
    show_short(&rt, b"")?;
    print!(rt; "short buffer, bits=")?;
    show_short(&rt, b"\x01\x00\x01\x09")?;
    let mut text = [0u8; 65536];
    let n = input::read_full(&mut rt.stdin(), &mut text)?;
    run(&rt, &text[..n])
}
