// Layout records, read and written: the numbers of a layout and its rows.
#![tactic(auto)]

ghost use Rattle.std.specs.Prelude.{◌≡◌};
ghost use Rattle.layout_record.specs.RecordLayoutAnswer.{read_as, read_layout_of, assignment_read, written_as, write_answer, out_after};

use cluster::Cluster;
use cluster::refusal::Refusal;
use fields::Refused;
use layout_head::Numbers;
use layout_rows::range;

mod rows;
mod write;

// Reads a layout record: its numbers. The layout goes into the first 2,048 lent cells, all of them or, where the reading is refused,
// none.
pub fn read_layout(bytes: &[u8], assignment: &mut [u32]) -> Result<Numbers, Refused>
    ensures { (read_as result ≡ read_layout_of bytes.now assignment.old)
        × (assignment.new ≡ assignment_read bytes.now assignment.old) }
{
    if assignment.len() < Cluster::CELLS {
        return Err(Refused {
            refusal: Refusal::Buffer,
            at: 0,
        });
    }
    let mut cells = [0u32; Cluster::CELLS];
    let numbers = rows::read_into(bytes, &mut cells)?;
    cells::copy(&cells, assignment);
    Ok(numbers)
}

// Writes a layout record to the front of the lent bytes, or nothing where it is refused; answers its length.
pub fn write_layout(numbers: Numbers, assignment: &[u32], out: &mut [u8]) -> Result<usize, Refusal>
    ensures { (written_as result ≡ write_answer numbers assignment.now out.old)
        × (out.new ≡ out_after numbers assignment.now out.old) }
{
    range::write_fault(numbers, assignment, out.len())?;
    write::put_record(numbers, assignment, out);
    Ok(range::record_length(numbers.bits, numbers.replication))
}
