// The worst loss of a layout in hand, asked through C.
ghost use Rattle.std.specs.Prelude.{◌≡◌};
ghost use Rattle.loss.specs.TermsLossAnswer.{worst_as, LossOwed};
ghost use Rattle.answers.specs.TermsAnswers.{unless_short, answer_after, reading};
ghost use Rattle.answers.specs.TermsStopped.{told_of, fault_in};
ghost use Rattle.console_layouts.specs.TermsConsoleLosses.{worst_cells, worst_found, worst_numbers};

use answers::entering;
use answers::stopped::{Stopped, Told};
use cluster::refusal::Refusal;
use loss::worst;
use loss::worst::Worst;

// The cells of the answer: byte (two cells), place, lost, the ids of the nodes (four cells).
const ANSWER: usize = 8;

// Reading's refusal, or else the worst loss for the cluster read.
fn worst_of_record(bytes: &[u8], assignment: &[u32], number: u32) -> Result<Worst, Stopped>
    ensures { let read = reading bytes.now in let found = worst_as (fault_in result) in
        (found ≡ worst_found read assignment.now number)
        × ((told_of result).byte ≡ read.byte)
        × (found.refusal ≡ 0 → LossOwed read.cluster assignment.now number found) }
{
    let c = entering::read(bytes)?;
    let worst = worst::worst_loss(c, assignment, number)?;
    Ok(worst)
}

// The most partitions that the loss of so many nodes can cost, and the first nodes that cost so many.
#[unsafe(no_mangle)]
pub extern "C" fn dezghuri_worst_loss(
    bytes: &[u8],
    assignment: &[u32],
    number: u32,
    answer: &mut [u32],
) -> u32
    ensures { let read = reading bytes.now in let found = worst_found read assignment.now number in let lent = answer.old in
        (result ≡ unless_short worst_cells lent 8 found.refusal)
        × (answer.new ≡ answer_after worst_cells lent (worst_numbers read found))
        × (result ≡ 0 → LossOwed read.cluster assignment.now number found) }
{
    if answer.len() < ANSWER {
        return Refusal::Buffer.into();
    }
    let found = worst_of_record(bytes, assignment, number);
    let told = Told::of(&found);
    let Worst { lost, nodes } = found.unwrap_or(Worst {
        lost: 0,
        nodes: [0; worst::MOST],
    });
    let numbers = [told.place, lost, nodes[0], nodes[1], nodes[2], nodes[3]];
    answers::put_after(told.byte, &numbers, answer);
    told.refusal
}
