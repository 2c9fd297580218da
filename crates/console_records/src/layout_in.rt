// Layout records, read through C.
ghost use Rattle.std.specs.Prelude.{◌≡◌};
ghost use Rattle.layout_record.specs.RecordLayoutAnswer.{read_layout_of, assignment_read};
ghost use Rattle.answers.specs.TermsAnswers.{unless_short, answer_after};
ghost use Rattle.console_records.specs.TermsConsoleRecords.{read_layout_cells, layout_numbers};

use cluster::refusal::Refusal;
use layout_head::Numbers;

// The cells of the answer: byte (two cells), bits, replication, size, sent, verdict, improvements.
const ANSWER: usize = 8;

// Reads a layout record into the lent cells.
#[unsafe(no_mangle)]
pub extern "C" fn dezghuri_read_layout(
    bytes: &[u8],
    assignment: &mut [u32],
    answer: &mut [u32],
) -> u32
    ensures { let read = read_layout_of bytes.now assignment.old in let lent = answer.old in
        (result ≡ unless_short read_layout_cells lent 8 read.refusal)
        × (assignment.new ≡ unless_short read_layout_cells lent assignment.old (assignment_read bytes.now assignment.old))
        × (answer.new ≡ answer_after read_layout_cells lent (layout_numbers read)) }
{
    if answer.len() < ANSWER {
        return Refusal::Buffer.into();
    }
    let (refusal, byte, n) = match layout_record::read_layout(bytes, assignment) {
        Ok(n) => (0, 0, n),
        Err(refused) => (refused.refusal.into(), refused.at, Numbers::none()),
    };
    let numbers = [
        n.bits,
        n.replication,
        n.size,
        n.sent,
        n.verdict,
        n.improvements,
    ];
    answers::put_after(byte as u64, &numbers, answer);
    refusal
}
