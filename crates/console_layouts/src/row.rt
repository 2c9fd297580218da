// One row of a layout in hand, copied to lent cells: C cannot be handed a part of a slice back.
ghost use Rattle.std.specs.Prelude.{◌≡◌};
ghost use Rattle.console_layouts.specs.TermsConsoleLayouts.{row_refusal, row_after};

use cluster::Cluster;
use cluster::refusal::Refusal;

// Copies the eight cells of row `partition`.
#[unsafe(no_mangle)]
pub extern "C" fn dezghuri_show_row(assignment: &[u32], partition: u32, row: &mut [u32]) -> u32
    ensures { (result ≡ row_refusal assignment.now partition row.old)
        × (row.new ≡ row_after assignment.now partition row.old) }
{
    if row.len() < Cluster::ROW {
        return Refusal::Buffer.into();
    }
    let mut refusal = 0;
    let shown = show::show_row(assignment, partition, &mut refusal);
    if refusal != 0 {
        return refusal;
    }
    // A length that the compiler knows becomes moves; of one that it does not know it makes a call of `memmove`, which no other C function needs.
    row[..Cluster::ROW].copy_from_slice(shown);
    0
}
