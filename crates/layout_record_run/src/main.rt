// Layout records read and written, each case with its refusal and then its byte, or the record's length.
#![tactic(auto)]

ghost use Rattle.std.specs.Prelude.{◌<◌, ◌≡◌, length};

use cluster::refusal::Refusal;
use fields::Refused;
use layout_head::Numbers;
use std::io;

// A record of 55 bytes, a line for each field: two partitions, two copies, size 25, sent 4, finished, no improvements, rows 1 2 and 2 3.
// A third row stands after it.
fn sample() -> [u8; 68]
    ensures { 68 ≡ length result }
{
    *b"\x01\x00\x01\x01\
       \x02\x00\x01\x02\
       \x06\x00\x04\x00\x00\x00\x19\
       \x07\x00\x02\x00\x04\
       \x08\x00\x01\x01\
       \x09\x00\x02\x00\x00\
       \x0a\x00\x0a\x00\x00\x00\x00\x00\x01\x00\x00\x00\x02\
       \x0a\x00\x0a\x00\x01\x00\x00\x00\x02\x00\x00\x00\x03\
       \x0a\x00\x0a\x00\x02\x00\x00\x00\x03\x00\x00\x00\x04"
}

// Its numbers.
fn numbers() -> Numbers {
    Numbers {
        bits: 1,
        replication: 2,
        size: 25,
        sent: 4,
        verdict: 1,
        improvements: 0,
    }
}

// The cells of its rows.
fn cells() -> [u32; 2048]
    ensures { 2048 ≡ length result }
{
    let mut c = [0u32; 2048];
    c[0] = 1;
    c[1] = 2;
    c[8] = 2;
    c[9] = 3;
    c
}

fn show_read(rt: &impl Print, name: &str, read: Result<Numbers, Refused>) -> io::Result<()> {
    match read {
        Ok(_) => println!(rt; "{name}: 0 0"),
        Err(refused) => println!(rt; "{name}: {} {}", u32::from(refused.refusal), refused.at),
    }
}

fn show_written(rt: &impl Print, name: &str, written: Result<usize, Refusal>) -> io::Result<()> {
    match written {
        Ok(length) => println!(rt; "{name}: 0 {length}"),
        Err(refusal) => println!(rt; "{name}: {} 0", u32::from(refusal)),
    }
}

// Reads the first bytes.
fn read(rt: &impl Print, name: &str, bytes: &[u8], len: usize) -> io::Result<()> {
    if bytes.len() < len {
        return Ok(());
    }
    let mut c = [0u32; 2048];
    let read = layout_record::read_layout(&bytes[..len], &mut c);
    show_read(rt, name, read)
}

// The first bytes of the sample.
fn read_part(rt: &impl Print, name: &str, len: usize) -> io::Result<()> {
    let bytes = sample();
    read(rt, name, &bytes, len)
}

// The sample with two bytes altered.
fn read_altered(rt: &impl Print, name: &str, at: usize, high: u8, low: u8) -> io::Result<()>
    requires { at < 55 }
{
    let mut bytes = sample();
    bytes[at] = high;
    bytes[at + 1] = low;
    read(rt, name, &bytes, 55)
}

fn read_short_buffer(rt: &impl Print) -> io::Result<()> {
    let bytes = sample();
    let mut c = [0u32; 2047];
    let read = layout_record::read_layout(&bytes, &mut c);
    show_read(rt, "read into 2,047 cells", read)
}

// Writes into the first bytes of an output.
fn write(
    rt: &impl Print,
    name: &str,
    n: Numbers,
    c: &[u32],
    out: &mut [u8],
    room: usize,
) -> io::Result<()> {
    if out.len() < room {
        return Ok(());
    }
    let written = layout_record::write_layout(n, c, &mut out[..room]);
    show_written(rt, name, written)
}

// The sample's rows with one cell altered.
fn write_cell(
    rt: &impl Print,
    name: &str,
    n: Numbers,
    at: usize,
    value: u32,
    room: usize,
) -> io::Result<()>
    requires { at < 2048 }
{
    let mut c = cells();
    c[at] = value;
    let mut out = [0u8; 68];
    write(rt, name, n, &c, &mut out, room)
}

fn bytes_of(rt: &impl Print, bytes: &[u8]) -> io::Result<()> {
    for b in bytes {
        print!(rt; "{b:02x}")?;
    }
    println!(rt; "")
}

// Written, and then read again.
fn both_ways(rt: &impl Print) -> io::Result<()> {
    let c = cells();
    let mut out = [255u8; 68];
    let written = layout_record::write_layout(numbers(), &c, &mut out);
    show_written(rt, "write", written)?;
    bytes_of(rt, &out)?;
    read(rt, "read again", &out, 55)
}

fn readings(rt: &impl Print) -> io::Result<()> {
    read_part(rt, "read", 55)?;
    read_altered(rt, "bits 9", 2, 1, 9)?;
    read_altered(rt, "replication 9", 6, 1, 9)?;
    read_altered(rt, "size 0", 13, 0, 0)?;
    read_altered(rt, "sent 2,048", 18, 8, 0)?;
    read_altered(rt, "sent 2,049", 18, 8, 1)?;
    read_altered(rt, "verdict 2", 22, 1, 2)?;
    read_altered(rt, "improvements 2,048", 27, 8, 0)?;
    read_altered(rt, "improvements 2,049", 27, 8, 1)?;
    read_altered(rt, "tag 3 after tag 2", 8, 3, 0)?;
    read_altered(rt, "first row for partition 1", 32, 0, 1)?;
    read_altered(rt, "second row for partition 0", 45, 0, 0)?;
    read_altered(rt, "second row for partition 2", 45, 0, 2)?;
    read_altered(rt, "row of 34 bytes", 30, 0, 34)?;
    read_altered(rt, "id 0", 36, 0, 0)?;
    read_altered(rt, "ids 1 1", 40, 0, 1)
}

fn parts(rt: &impl Print) -> io::Result<()> {
    read_part(rt, "no bytes", 0)?;
    read_part(rt, "one byte", 1)?;
    read_part(rt, "no row", 29)?;
    read_part(rt, "one row", 42)?;
    read_part(rt, "two bytes of a row", 44)?;
    read_part(rt, "cut row", 54)?;
    read_part(rt, "one byte more", 56)?;
    read_part(rt, "one row more", 68)?;
    read_short_buffer(rt)
}

fn writings(rt: &impl Print) -> io::Result<()> {
    let n = numbers();
    let mut none = n;
    none.size = 0;
    let mut most = n;
    most.sent = 2048;
    let mut more = n;
    more.sent = 2049;
    write_cell(rt, "write into 55 bytes", n, 0, 1, 55)?;
    write_cell(rt, "write into 54 bytes", n, 0, 1, 54)?;
    write_cell(rt, "write size 0", none, 0, 1, 68)?;
    write_cell(rt, "write sent 2,048", most, 0, 1, 68)?;
    write_cell(rt, "write sent 2,049", more, 0, 1, 68)?;
    write_cell(rt, "write row 2 2", n, 0, 2, 68)?;
    write_cell(rt, "write three ids", n, 2, 3, 68)?;
    write_cell(rt, "write a row past the last", n, 16, 5, 68)?;
    write_cell(rt, "write size 0, row 2 2, into 54 bytes", none, 0, 2, 54)?;
    write_cell(rt, "write row 2 2 into 54 bytes", n, 0, 2, 54)?;
    let c = [0u32; 2047];
    let mut out = [0u8; 68];
    write(rt, "write size 0 from 2,047 cells", none, &c, &mut out, 54)
}

fn main(rt: HostRuntime) -> io::Result<()> {
    readings(&rt)?;
    parts(&rt)?;
    both_ways(&rt)?;
    writings(&rt)
}
