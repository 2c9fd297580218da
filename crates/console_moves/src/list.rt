// The list of moves, asked through C.
ghost use Rattle.std.specs.Prelude.{◌≡◌, OnOk};
ghost use Rattle.answers.specs.TermsAnswers.{unless_short, answer_after, reading};
ghost use Rattle.answers.specs.TermsStopped.{told_of, fault_in};
ghost use Rattle.move_list.specs.TermsMoveList.{listed_as, MovesOwed};
ghost use Rattle.console_moves.specs.TermsConsoleMoves.{moves_cells, listed_of, moves_left, moves_numbers};

use super::count::ANSWER;
use answers::entering;
use answers::stopped::{Stopped, Told};
use cluster::refusal::Refusal;

// Reading's refusal, or else the list for the cluster read.
fn list_of_record(
    bytes: &[u8],
    former: &[u32],
    assignment: &[u32],
    moves: &mut [u32],
) -> Result<u32, Stopped>
    ensures { let read = reading bytes.now in
        (listed_as (fault_in result) ≡ listed_of read former.now assignment.now moves.old)
        × ((told_of result).byte ≡ read.byte)
        × (moves.new ≡ moves_left read former.now assignment.now moves.old)
        × OnOk result (MovesOwed read.cluster former.now assignment.now) }
{
    let c = entering::read(bytes)?;
    let steps = move_list::list(c, former, assignment, moves)?;
    Ok(steps)
}

// Lists the steps from the former layout, in rows of sixteen cells, to the assignment; the former rows of the record are not used.
#[unsafe(no_mangle)]
pub extern "C" fn dezghuri_moves(
    bytes: &[u8],
    former: &[u32],
    assignment: &[u32],
    moves: &mut [u32],
    answer: &mut [u32],
) -> u32
    ensures { let read = reading bytes.now in let found = listed_of read former.now assignment.now moves.old in let lent = answer.old in
        (result ≡ unless_short moves_cells lent 8 found.refusal)
        × (moves.new ≡ unless_short moves_cells lent moves.old (moves_left read former.now assignment.now moves.old))
        × (answer.new ≡ answer_after moves_cells lent (moves_numbers read found))
        × (result ≡ 0 → MovesOwed read.cluster former.now assignment.now) }
{
    if answer.len() < ANSWER {
        return Refusal::Buffer.into();
    }
    let found = list_of_record(bytes, former, assignment, moves);
    let told = Told::of(&found);
    let steps = found.unwrap_or(0);
    answers::put_after(told.byte, &[told.place, steps], answer);
    told.refusal
}
