// Layout records, written through C.
ghost use Rattle.std.specs.Prelude.{◌≡◌};
ghost use Rattle.layout_head.specs.RecordHead.{numbers_of};
ghost use Rattle.layout_record.specs.RecordLayoutAnswer.{write_answer, out_after};
ghost use Rattle.answers.specs.TermsAnswers.{halves, unless_short, answer_after};
ghost use Rattle.console_records.specs.TermsConsoleRecords.{write_cells};

use cluster::refusal::Refusal;
use layout_head::Numbers;

// The cells of the answer: the record's length (two cells).
const ANSWER: usize = 2;

// Writes the record of a layout to the front of the lent bytes.
#[unsafe(no_mangle)]
pub extern "C" fn dezghuri_write_layout(
    bits: u32,
    replication: u32,
    size: u32,
    sent: u32,
    verdict: u32,
    improvements: u32,
    assignment: &[u32],
    out: &mut [u8],
    answer: &mut [u32],
) -> u32
    ensures { let n = numbers_of bits replication size sent verdict improvements in let written = write_answer n assignment.now out.old in let lent = answer.old in
        (result ≡ unless_short write_cells lent 8 written.refusal)
        × (out.new ≡ unless_short write_cells lent out.old (out_after n assignment.now out.old))
        × (answer.new ≡ answer_after write_cells lent (halves written.length)) }
{
    if answer.len() < ANSWER {
        return Refusal::Buffer.into();
    }
    let n = Numbers {
        bits,
        replication,
        size,
        sent,
        verdict,
        improvements,
    };
    let (refusal, length) = match layout_record::write_layout(n, assignment, out) {
        Ok(length) => (0, length as u64),
        Err(refusal) => (refusal.into(), 0),
    };
    let numbers = [answers::high(length), answers::low(length)];
    cells::put(&numbers, 0, answer);
    refusal
}
