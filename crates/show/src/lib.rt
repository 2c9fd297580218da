// One row of a lent layout, as the caller's own cells.
#![tactic(auto)]

ghost use Rattle.std.specs.Prelude.{◌≡◌, ◌+◌};
ghost use Rattle.show.specs.TermsShow.{shown, show_code, show_byte};

use cluster::Cluster;
use cluster::refusal::Refusal;

// The eight cells of row `partition`, none of them copied; no cell where it is refused. The refusal goes into the lent number.
pub fn show_row<'a>(cells: &'a [u32], partition: u32, refusal: &mut u32) -> &'a [u32]
    ensures cells { result.now ≡ shown cells.now partition }
    ensures refusal { refusal.new ≡ show_code cells.now partition }
    ensures block { result.ref_ptr.0 ≡ cells.entry.ref_ptr.0 }
    ensures byte { result.ref_ptr.1 ≡ cells.entry.ref_ptr.1 + show_byte cells.now partition }
{
    if cells.len() < Cluster::CELLS {
        *refusal = Refusal::Buffer.into();
        return &cells[0..0];
    }
    if Cluster::PARTITIONS as u32 <= partition {
        *refusal = Refusal::Range.into();
        return &cells[0..0];
    }
    *refusal = 0;
    let from = (partition as usize) * Cluster::ROW;
    &cells[from..from + Cluster::ROW]
}
