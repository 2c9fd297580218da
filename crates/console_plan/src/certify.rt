// The certificate of a layout in hand, asked through C: a price for each node, by which anybody can check the plan.
ghost use Rattle.std.specs.Prelude.{◌≡◌, length};
ghost use Rattle.cluster.specs.Terms.{topology};
ghost use Rattle.certificate.specs.TermsCertify.{certify_fault, former_in as former_rows_of, new_in, certified_as, Owed};
ghost use Rattle.answers.specs.TermsAnswers.{unless_short, answer_after, reading};
ghost use Rattle.answers.specs.TermsStopped.{told_of, fault_in};
ghost use Rattle.console_plan.specs.TermsConsolePlan.{former_in};
ghost use Rattle.console_plan.specs.TermsConsoleCertify.{certify_cells, certified_read, certify_numbers, CertifyOwed};

use answers::stopped::{Stopped, Told};
use cluster::Cluster;
use cluster::refusal::Refusal;

// The cells of the answer before the prices: byte (two cells), place.
const BEFORE: usize = 3;
// The cells of the answer, with a price for each slot.
const ANSWER: usize = BEFORE + Cluster::NODES;

// Reading's refusal, or else the certificate of the cluster read.
fn certify_record(
    bytes: &[u8],
    assignment: &[u32],
    size: u32,
) -> Result<[u32; Cluster::NODES], Stopped>
    ensures { let s = bytes.now in let cells = assignment.now in
        let read = reading s in let made = certified_as (fault_in result) in
        (made ≡ certified_read read (former_in s) cells size)
        × ((told_of result).byte ≡ read.byte)
        × (read.refusal ≡ 0 → (certify_fault read.cluster (former_in s) cells size).refusal ≡ 0
        → Owed (topology read.cluster) (former_rows_of read.cluster (former_in s)) (new_in read.cluster cells) size made) }
{
    let mut former = [0u32; Cluster::CELLS];
    let c = cluster_record::read_cluster(bytes, &mut former)?;
    let prices = certificate::certify(c, &former, assignment, size)?;
    Ok(prices)
}

// The certificate of an assignment for the cluster of a record, whose former layout the record carries.
#[unsafe(no_mangle)]
pub extern "C" fn dezghuri_certify(
    bytes: &[u8],
    assignment: &[u32],
    size: u32,
    answer: &mut [u32],
) -> u32
    ensures { let s = bytes.now in let cells = assignment.now in let lent = answer.old in
        let made = certified_read (reading s) (former_in s) cells size in
        (result ≡ unless_short certify_cells lent 8 made.refusal)
        × (answer.new ≡ answer_after certify_cells lent (certify_numbers (reading s) made))
        × CertifyOwed s cells size (length lent) }
{
    if answer.len() < ANSWER {
        return Refusal::Buffer.into();
    }
    let found = certify_record(bytes, assignment, size);
    let told = Told::of(&found);
    let prices = found.unwrap_or([0; Cluster::NODES]);
    answers::put_after(told.byte, &[told.place], answer);
    cells::put(&prices, BEFORE, answer);
    told.refusal
}
