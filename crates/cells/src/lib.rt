// Lists of cells, tabulated and overwritten from a place on (specs/ and proofs/), and numbers copied into lent cells.
#![tactic(auto)]

ghost use Rattle.std.specs.Prelude.{◌≡◌, ◌++◌, ◌+◌, ◌≤◌, length, take, drop};

// Copies cells to the front of lent ones.
pub fn copy(cells: &[u32], to: &mut [u32])
    requires { length cells.now ≤ length to.old }
    ensures { to.new ≡ cells.now ++ drop (length cells.now) to.old }
{
    put(cells, 0, to)
}

// Numbers go into the cells from `at` on.
pub fn put(numbers: &[u32], at: usize, cells: &mut [u32])
    requires { at + length numbers.now ≤ length cells.old }
    ensures { cells.new ≡ take at cells.old ++ numbers.now ++ drop (at + length numbers.now) cells.old }
{
    cells[at..at + numbers.len()].copy_from_slice(numbers)
}
