// The loss of given nodes, asked through C.
ghost use Rattle.std.specs.Prelude.{◌≡◌};
ghost use Rattle.loss.specs.TermsLossAnswer.{lost_as};
ghost use Rattle.answers.specs.TermsAnswers.{unless_short, answer_after, reading};
ghost use Rattle.answers.specs.TermsStopped.{told_of, fault_in};
ghost use Rattle.console_layouts.specs.TermsConsoleLosses.{given_cells, given_found, given_numbers};

use answers::entering;
use answers::stopped::{Stopped, Told};
use cluster::refusal::Refusal;
use loss::given;

// The cells of the answer: byte (two cells), place, lost.
const ANSWER: usize = 4;

// Reading's refusal, or else the loss for the cluster read.
fn loss_of_record(bytes: &[u8], assignment: &[u32], nodes: &[u32]) -> Result<u32, Stopped>
    ensures { let read = reading bytes.now in
        (lost_as (fault_in result) ≡ given_found read assignment.now nodes.now) × ((told_of result).byte ≡ read.byte) }
{
    let c = entering::read(bytes)?;
    let lost = given::loss_of(c, assignment, nodes)?;
    Ok(lost)
}

// How many partitions are lost with the nodes whose ids are given.
#[unsafe(no_mangle)]
pub extern "C" fn dezghuri_loss(
    bytes: &[u8],
    assignment: &[u32],
    nodes: &[u32],
    answer: &mut [u32],
) -> u32
    ensures { let read = reading bytes.now in let found = given_found read assignment.now nodes.now in let lent = answer.old in
        (result ≡ unless_short given_cells lent 8 found.refusal)
        × (answer.new ≡ answer_after given_cells lent (given_numbers read found)) }
{
    if answer.len() < ANSWER {
        return Refusal::Buffer.into();
    }
    let found = loss_of_record(bytes, assignment, nodes);
    let told = Told::of(&found);
    let lost = found.unwrap_or(0);
    answers::put_after(told.byte, &[told.place, lost], answer);
    told.refusal
}
