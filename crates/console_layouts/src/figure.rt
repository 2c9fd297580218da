// The figures of a layout in hand, asked through C.
ghost use Rattle.std.specs.Prelude.{◌≡◌};
ghost use Rattle.figures.specs.TermsFigures.{figured_as};
ghost use Rattle.answers.specs.TermsAnswers.{unless_short, answer_after, reading};
ghost use Rattle.answers.specs.TermsStopped.{told_of, fault_in};
ghost use Rattle.console_layouts.specs.TermsConsoleLayouts.{figured_cells, figured, figures_left, figured_numbers};

use answers::entering;
use answers::stopped::{Stopped, Told};
use cluster::refusal::Refusal;

// The cells of the answer: byte (two cells), place, the size to hope for (two cells).
const ANSWER: usize = 5;

// Reading's refusal, or else the figures of the cluster read.
fn figures_of_record(
    bytes: &[u8],
    assignment: &[u32],
    size: u32,
    figures: &mut [u32],
) -> Result<u64, Stopped>
    ensures { let read = reading bytes.now in
        (figured_as (fault_in result) ≡ figured read assignment.now size figures.old)
        × ((told_of result).byte ≡ read.byte)
        × (figures.new ≡ figures_left read assignment.now size figures.old) }
{
    // A `match`: at `?` the cluster would be copied once more, onto the stack of whoever calls through C.
    match entering::read(bytes) {
        Ok(c) => match figures::figures(c, assignment, size, figures) {
            Ok(hope) => Ok(hope),
            Err(fault) => Err(fault.into()),
        },
        Err(refused) => Err(refused.into()),
    }
}

// The figures of an assignment that check passes for the cluster of a record.
#[unsafe(no_mangle)]
pub extern "C" fn dezghuri_figures(
    bytes: &[u8],
    assignment: &[u32],
    size: u32,
    figures: &mut [u32],
    answer: &mut [u32],
) -> u32
    ensures { let read = reading bytes.now in let found = figured read assignment.now size figures.old in let lent = answer.old in
        (result ≡ unless_short figured_cells lent 8 found.refusal)
        × (figures.new ≡ unless_short figured_cells lent figures.old (figures_left read assignment.now size figures.old))
        × (answer.new ≡ answer_after figured_cells lent (figured_numbers read found)) }
{
    if answer.len() < ANSWER {
        return Refusal::Buffer.into();
    }
    let found = figures_of_record(bytes, assignment, size, figures);
    let told = Told::of(&found);
    let hope = found.unwrap_or(0);
    let numbers = [told.place, answers::high(hope), answers::low(hope)];
    answers::put_after(told.byte, &numbers, answer);
    told.refusal
}
