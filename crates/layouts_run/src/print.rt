// Lines of standard output.
use layouts::check::Fault;
use std::io;

// A name, a number and a line end.
pub fn number(rt: &impl Print, name: &str, n: u64) -> io::Result<()> {
    println!(rt; "{name}{n}")
}

// A name and what a cell holds; 0 where there is no such cell.
pub fn cell(rt: &impl Print, name: &str, cells: &[u32], at: usize) -> io::Result<()> {
    if at < cells.len() {
        number(rt, name, u64::from(cells[at]))
    } else {
        number(rt, name, 0)
    }
}

// What the cells of the first, the third and the fourth node hold.
pub fn some(rt: &impl Print, name: &str, cells: &[u32], from: usize) -> io::Result<()> {
    if from < 64 {
        cell(rt, name, cells, from)?;
        cell(rt, name, cells, from + 2)?;
        cell(rt, name, cells, from + 3)?;
    }
    Ok(())
}

// A refusal and its place, after the name of a case.
pub fn numbers(rt: &impl Print, refusal: u32, place: u32) -> io::Result<()> {
    println!(rt; ": {refusal} {place}")
}

// The refusal that was found and its place, 0 where there is none.
pub fn answer<T>(rt: &impl Print, found: &Result<T, Fault>) -> io::Result<()> {
    match found {
        Ok(_) => numbers(rt, 0, 0),
        Err(fault) => numbers(rt, fault.refusal.into(), fault.place),
    }
}
