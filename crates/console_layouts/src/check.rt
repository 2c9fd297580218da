// Whether a layout in hand is valid at a size, asked through C.
ghost use Rattle.std.specs.Prelude.{◌≡◌};
ghost use Rattle.layouts.specs.TermsCheck.{checked_as};
ghost use Rattle.answers.specs.TermsAnswers.{unless_short, answer_after, reading};
ghost use Rattle.answers.specs.TermsStopped.{told_of, fault_in};
ghost use Rattle.console_layouts.specs.TermsConsoleLayouts.{check_cells, checked, check_numbers};

use answers::entering;
use answers::stopped::{Stopped, Told};
use cluster::refusal::Refusal;
use layouts::check;

// The cells of the answer: byte (two cells), place.
const ANSWER: usize = 3;

// Reading's refusal, or else what check answers of the cluster read.
fn check_record(bytes: &[u8], assignment: &[u32], size: u32) -> Result<(), Stopped>
    ensures { let read = reading bytes.now in
        (checked_as (fault_in result) ≡ checked read assignment.now size) × ((told_of result).byte ≡ read.byte) }
{
    let c = entering::read(bytes)?;
    check::check(c, assignment, size)?;
    Ok(())
}

// Checks an assignment against the cluster of a record.
#[unsafe(no_mangle)]
pub extern "C" fn dezghuri_check(
    bytes: &[u8],
    assignment: &[u32],
    size: u32,
    answer: &mut [u32],
) -> u32
    ensures { let read = reading bytes.now in let found = checked read assignment.now size in let lent = answer.old in
        (result ≡ unless_short check_cells lent 8 found.refusal)
        × (answer.new ≡ answer_after check_cells lent (check_numbers read found)) }
{
    if answer.len() < ANSWER {
        return Refusal::Buffer.into();
    }
    let found = check_record(bytes, assignment, size);
    let told = Told::of(&found);
    answers::put_after(told.byte, &[told.place], answer);
    told.refusal
}
