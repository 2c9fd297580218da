// Cluster records, read through C.
ghost use Rattle.std.specs.Prelude.{◌≡◌};
ghost use Rattle.cluster_record.specs.RecordClusterAnswer.{read_cluster_of, former_read};
ghost use Rattle.answers.specs.TermsAnswers.{unless_short, answer_after};
ghost use Rattle.console_records.specs.TermsConsoleRecords.{read_cluster_cells, cluster_numbers};

use cluster::Cluster;
use cluster::refusal::Refusal;

// The cells of the answer before the nodes: byte (two cells), bits, replication, redundancy, number of nodes.
const HEAD: usize = 6;
// The cells of the answer.
const ANSWER: usize = HEAD + answers::NODE * Cluster::NODES;

// Reads a cluster record, and its former layout into the lent cells.
#[unsafe(no_mangle)]
pub extern "C" fn dezghuri_read_cluster(bytes: &[u8], former: &mut [u32], answer: &mut [u32]) -> u32
    ensures { let read = read_cluster_of bytes.now former.old in let lent = answer.old in
        (result ≡ unless_short read_cluster_cells lent 8 read.refusal)
        × (former.new ≡ unless_short read_cluster_cells lent former.old (former_read bytes.now former.old))
        × (answer.new ≡ answer_after read_cluster_cells lent (cluster_numbers read)) }
{
    if answer.len() < ANSWER {
        return Refusal::Buffer.into();
    }
    let (refusal, byte, c) = match cluster_record::read_cluster(bytes, former) {
        Ok(c) => (0, 0, c),
        Err(refused) => (refused.refusal.into(), refused.at, Cluster::none()),
    };
    let numbers = [c.bits, c.replication, c.redundancy, c.count as u32];
    answers::put_after(byte as u64, &numbers, answer);
    answers::put_nodes(c, HEAD, answer);
    refusal
}
