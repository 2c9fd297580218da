// The C function of a change; the cluster enters as its record. It answers its refusal, 0 for none; the bytes of the reverse go into the lent bytes
// `reverse`, its other numbers into the lent cells `answer`. One of them that is too short is refused before anything is touched.
#![tactic(auto)]

ghost use Rattle.std.specs.Prelude.{◌≡◌, ◌∷◌, ◌++◌, ◌≤◌, IfOk, length, drop};
ghost use Rattle.cluster.specs.Terms.{most_nodes};
ghost use Rattle.cluster.specs.TermsReading.{no_nodes};
ghost use Rattle.change_fields.specs.RecordChange.{longest_change};
ghost use Rattle.changes.specs.TermsUndo.{Owed};
ghost use Rattle.answers.specs.TermsAnswers.{halves, node_cells, reading};
ghost use Rattle.console_changes.specs.TermsConsoleChanges.{changed_as, byte_as, made_read, change_cells, unless_either, reverse_after, change_numbers, ChangeOwed};

use changes::Done;
use cluster::Cluster;
use cluster::refusal::Refusal;
use fields::Refused;

// The cells of the answer before the nodes: byte of the reading (two cells), byte answered (two cells), length of the reverse, bits, replication,
// redundancy, number of nodes.
const HEAD: usize = 9;
// The cells of the answer.
const ANSWER: usize = HEAD + answers::NODE * Cluster::NODES;

// The numbers of the answer go to the front of the lent cells: the byte of the reading, the byte answered, the length of the reverse, and the
// cluster that is left.
fn put_made(byte: usize, next: usize, len: usize, c: Cluster, cells: &mut [u32])
    requires { (change_cells ≤ length cells.old) × (c.count ≤ most_nodes) × (len ≤ longest_change) }
    ensures { cells.new ≡ halves byte ++ (halves next ++ (len ∷ c.bits ∷ c.replication ∷ c.redundancy ∷ c.count ∷ node_cells c.nodes)) ++ drop change_cells cells.old }
{
    let numbers = [
        answers::high(next as u64),
        answers::low(next as u64),
        len as u32,
        c.bits,
        c.replication,
        c.redundancy,
        c.count as u32,
    ];
    answers::put_after(byte as u64, &numbers, cells);
    answers::put_nodes(c, HEAD, cells);
}

// Reads the cluster of a record and makes the change on it. Reading's refusal has its byte, and the cluster with no nodes is left; the change's has
// byte 0, and the cluster read is left.
fn change_read(c: &mut Cluster, bytes: &[u8], changes: &[u8], at: usize) -> Result<Done, Refused>
    requires { c.old ≡ no_nodes }
    ensures { let read = reading bytes.now in
        (changed_as at c.new result ≡ made_read read changes.now at)
        × (byte_as result ≡ read.byte)
        × (c.new.count ≤ most_nodes)
        × IfOk result (λ done. done.reverse.len ≤ longest_change)
        × (read.refusal ≡ 0 → Owed read.cluster changes.now at) }
{
    *c = answers::entering::read(bytes)?;
    match changes::change(c, changes, at) {
        Ok(done) => Ok(done),
        Err(refusal) => Err(Refused { refusal, at: 0 }),
    }
}

// Makes the change at a byte of a change record on the cluster of a record.
#[unsafe(no_mangle)]
pub extern "C" fn dezghuri_change(
    bytes: &[u8],
    changes: &[u8],
    at: usize,
    reverse: &mut [u8],
    answer: &mut [u32],
) -> u32
    ensures { let s = bytes.now in let out = reverse.old in let lent = answer.old in
        let made = made_read (reading s) changes.now at in
        (result ≡ unless_either out lent 8 made.answer.refusal)
        × (reverse.new ≡ unless_either out lent out (reverse_after out made.answer))
        × (answer.new ≡ unless_either out lent lent (change_numbers (reading s).byte made ++ drop change_cells lent))
        × ChangeOwed s changes.now at (length out) (length lent) }
{
    if answer.len() < ANSWER {
        return Refusal::Buffer.into();
    }
    if reverse.len() < change_fields::LONGEST {
        return Refusal::Buffer.into();
    }
    let mut c = Cluster::none();
    match change_read(&mut c, bytes, changes, at) {
        Ok(done) => {
            reverse[..change_fields::LONGEST].copy_from_slice(&done.reverse.bytes);
            put_made(0, done.next, done.reverse.len, c, answer);
            0
        }
        Err(refused) => {
            put_made(refused.at, at, 0, c, answer);
            refused.refusal.into()
        }
    }
}
