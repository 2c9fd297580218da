// Runs check, figures and showing a row on cases that it reads from standard input, each on a line of its own: a name, a `=`, a letter, and
// hexadecimal digits. It prints the name, the refusal, its place, and what else is answered. The digits of a case spell its size, or its partition
// (four bytes), how many cells are lent (two), what a cell without an id holds (one), and up to two rows: a cell (two) and three ids (one each).
// Lines whose letter is `C`, `H` or `N` have no name, and give the cluster of the cases after them; a line without a `=` is a remark.
#![tactic(auto)]

use cluster::Cluster;
use layouts::check;
use std::io;

mod print;

// The cluster with other numbers: bits, replication, redundancy and the count of nodes, a byte each.
fn with_head(c: Cluster, bytes: &[u8]) -> Cluster {
    let nodes = c.nodes;
    Cluster {
        bits: numbers::byte_at(bytes, 0),
        replication: numbers::byte_at(bytes, 1),
        redundancy: numbers::byte_at(bytes, 2),
        count: numbers::byte_at(bytes, 3) as usize,
        nodes,
    }
}

// The cluster with a node in a slot: a byte for the slot, and the bytes of the node.
fn with_node(c: Cluster, bytes: &[u8]) -> Cluster {
    let mut next = c;
    let b = numbers::byte_at(bytes, 0) as usize;
    if b < Cluster::NODES {
        next.nodes[b] = node_bytes::node_at(bytes, 1);
    }
    next
}

// An id into a cell; 0 is none.
fn put(cells: &mut [u32], at: usize, id: u32) {
    if at < cells.len() {
        if id != 0 {
            cells[at] = id;
        }
    }
}

// The row that is spelled from byte `at` on.
fn row(cells: &mut [u32], bytes: &[u8], at: usize) {
    if at < 32 {
        let from = numbers::pair_at(bytes, at) as usize;
        put(cells, from, numbers::byte_at(bytes, at + 2));
        put(cells, from + 1, numbers::byte_at(bytes, at + 3));
        put(cells, from + 2, numbers::byte_at(bytes, at + 4));
    }
}

// Check of lent cells at a size.
fn check(rt: &impl Print, c: Cluster, cells: &[u32], size: u32) -> io::Result<()> {
    print::answer(rt, &check::check(c, cells, size))
}

// Figures, some of which are printed with the cell after them. They go into cells that hold 77.
fn figure(rt: &impl Print, c: Cluster, assignment: &[u32], size: u32) -> io::Result<()> {
    let mut cells = [77u32; 65];
    let found = figures::figures(c, assignment, size, &mut cells);
    print::answer(rt, &found)?;
    print::number(rt, "  hope ", found.unwrap_or(0))?;
    print::some(rt, "  copies ", &cells, 0)?;
    print::some(rt, "  zone ", &cells, 32)?;
    print::cell(rt, "  after ", &cells, 64)
}

// Figures into one cell too few.
fn figure_short(rt: &impl Print, c: Cluster, assignment: &[u32], size: u32) -> io::Result<()> {
    let mut cells = [77u32; 63];
    print::answer(rt, &figures::figures(c, assignment, size, &mut cells))
}

// One row: its refusal, the number of its cells, and its third cell.
fn show(rt: &impl Print, cells: &[u32], partition: u32) -> io::Result<()> {
    let mut refusal = 99;
    let part = show::show_row(cells, partition, &mut refusal);
    print::numbers(rt, refusal, 0)?;
    print::number(rt, "  cells ", part.len() as u64)?;
    print::cell(rt, "  third ", part, 2)
}

// A case of a letter: check, figures, figures into too few cells, or a row shown.
fn case(rt: &impl Print, c: Cluster, letter: u8, size: u32, cells: &[u32]) -> io::Result<()> {
    match letter {
        b'K' => check(rt, c, cells, size),
        b'F' => figure(rt, c, cells, size),
        b'G' => figure_short(rt, c, cells, size),
        b'S' => show(rt, cells, size),
        _ => Ok(()),
    }
}

// A case with the first n of the cells lent.
fn lend(
    rt: &impl Print,
    c: Cluster,
    letter: u8,
    size: u32,
    cells: &[u32],
    n: usize,
) -> io::Result<()> {
    if n <= cells.len() {
        case(rt, c, letter, size, &cells[..n])?;
    }
    Ok(())
}

// The case that is spelled.
fn spelled(rt: &impl Print, c: Cluster, letter: u8, bytes: &[u8]) -> io::Result<()> {
    let mut cells = [numbers::byte_at(bytes, 6); 2056];
    row(&mut cells, bytes, 7);
    row(&mut cells, bytes, 12);
    lend(
        rt,
        c,
        letter,
        numbers::word_at(bytes, 0),
        &cells,
        numbers::pair_at(bytes, 4) as usize,
    )
}

// What follows the `=` of a line: a case, or the cluster of those after it.
fn line(rt: &impl Print, text: &[u8], c: Cluster) -> io::Result<Cluster> {
    let Some((letter, digits)) = text.split_first() else {
        return Ok(c);
    };
    let mut bytes = [0u8; 32];
    hex_digits::decode(digits, 0, &mut bytes);
    match *letter {
        b'C' => Ok(with_head(Cluster::none(), &bytes)),
        b'H' => Ok(with_head(c, &bytes)),
        b'N' => Ok(with_node(c, &bytes)),
        letter => {
            spelled(rt, c, letter, &bytes)?;
            Ok(c)
        }
    }
}

fn run(rt: &impl Print, text: &[u8]) -> io::Result<()> {
    let mut c = Cluster::none();
    let mut start = 0;
    for (at, b) in text.iter().enumerate() {
        if *b == b'=' {
            rt.write_all(&text[start..at])?;
            c = line(rt, &text[at + 1..], c)?;
        }
        if *b == b'\n' {
            start = at + 1;
        }
    }
    Ok(())
}

fn main(rt: HostRuntime) -> io::Result<()> {
    let mut text = [0u8; 65536];
    let n = input::read_full(&mut rt.stdin(), &mut text)?;
    run(&rt, &text[..n])
}
