// The number of steps of the list of moves, asked through C.
ghost use Rattle.std.specs.Prelude.{◌≡◌, OnOk};
ghost use Rattle.answers.specs.TermsAnswers.{unless_short, answer_after, reading};
ghost use Rattle.answers.specs.TermsStopped.{told_of, fault_in};
ghost use Rattle.move_list.specs.TermsMoveList.{listed_as, MovesOwed};
ghost use Rattle.console_moves.specs.TermsConsoleMoves.{moves_cells, counted_of, moves_numbers};

use answers::entering;
use answers::stopped::{Stopped, Told};
use cluster::refusal::Refusal;

// The cells of the answer: byte (two cells), place, steps.
pub(crate) const ANSWER: usize = 4;

// Reading's refusal, or else the count for the cluster read.
fn count_of_record(bytes: &[u8], former: &[u32], assignment: &[u32]) -> Result<u32, Stopped>
    ensures { let read = reading bytes.now in
        (listed_as (fault_in result) ≡ counted_of read former.now assignment.now)
        × ((told_of result).byte ≡ read.byte)
        × OnOk result (MovesOwed read.cluster former.now assignment.now) }
{
    let c = entering::read(bytes)?;
    let steps = move_list::count(c, former, assignment)?;
    Ok(steps)
}

// Counts the steps from the former layout, in rows of sixteen cells, to the assignment; the former rows of the record are not used.
#[unsafe(no_mangle)]
pub extern "C" fn dezghuri_count_moves(
    bytes: &[u8],
    former: &[u32],
    assignment: &[u32],
    answer: &mut [u32],
) -> u32
    ensures { let read = reading bytes.now in let found = counted_of read former.now assignment.now in let lent = answer.old in
        (result ≡ unless_short moves_cells lent 8 found.refusal)
        × (answer.new ≡ answer_after moves_cells lent (moves_numbers read found))
        × (result ≡ 0 → MovesOwed read.cluster former.now assignment.now) }
{
    if answer.len() < ANSWER {
        return Refusal::Buffer.into();
    }
    let found = count_of_record(bytes, former, assignment);
    let told = Told::of(&found);
    let steps = found.unwrap_or(0);
    answers::put_after(told.byte, &[told.place, steps], answer);
    told.refusal
}
