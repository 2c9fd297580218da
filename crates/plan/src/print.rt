// What the program prints, line by line.
ghost use Rattle.std.specs.Prelude.{◌≤◌, length};
ghost use Rattle.cluster.specs.Terms.{most_bits, layout_cells};

use cluster::Cluster;
use cluster::refusal::Refusal;
use planner::settle::Plan;
use std::io;

// A name and its number.
fn number(rt: &impl Print, name: &str, n: u32) -> io::Result<()> {
    print!(rt; "{name}{n}")
}

// A name, its number and the line's end.
fn line(rt: &impl Print, name: &str, n: u32) -> io::Result<()> {
    println!(rt; "{name}{n}")
}

// The one line of a refusal.
pub(crate) fn refused(rt: &impl Print, refusal: Refusal) -> io::Result<()> {
    line(rt, "refused ", refusal.into())
}

// The lines of the numbers and of the verdict.
pub(crate) fn numbers(rt: &impl Print, made: Plan) -> io::Result<()> {
    line(rt, "size ", made.size)?;
    line(rt, "sent ", made.sent)?;
    line(rt, "improvements ", made.improvements)?;
    if made.finished {
        println!(rt; "finished")
    } else {
        println!(rt; "stopped")
    }
}

// The line of a partition: its number, and the ids of its row.
fn row(rt: &impl Print, partition: u32, cells: &[u32]) -> io::Result<()> {
    number(rt, "", partition)?;
    print!(rt; ":")?;
    for id in cells {
        if *id != 0 {
            number(rt, " ", *id)?;
        }
    }
    println!(rt; "")
}

// The lines of all partitions.
pub(crate) fn rows(rt: &impl Print, bits: u32, assignment: &[u32]) -> io::Result<()>
    requires { (bits ≤ most_bits) × (layout_cells ≤ length assignment.now) }
{
    let partitions: u32 = 1 << bits;
    for p in 0..partitions {
        let from = (p as usize) * Cluster::ROW;
        row(rt, p, &assignment[from..from + Cluster::ROW])?;
    }
    Ok(())
}
