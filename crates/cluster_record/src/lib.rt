// Reading a cluster record: bytes to a cluster and the cells of its former layout.
#![tactic(auto)]

ghost use Rattle.std.specs.Prelude.{◌≡◌, IsOk, replicate};
ghost use Rattle.cluster.specs.Terms.{layout_cells, cells_of};
ghost use Rattle.cluster.specs.TermsReading.{slots_of};
ghost use Rattle.cluster_reading.specs.RecordClusterReading.{Reading, ended as ended_of, read_cluster};
ghost use Rattle.cluster_record.specs.RecordClusterAnswer.{read_as, cluster_answer, read_cluster_of, former_read};

use cluster::Cluster;
use cluster::refusal::Refusal;
use cluster_fields::{faults, row_faults, taking};
use fields::reader::Reader;
use fields::{Field, Refused, reader};

// What is said at the end of the bytes: a field is missing, or the cluster stands.
fn ended(bytes: &[u8], last: u32, c: Cluster) -> Result<Cluster, Refused>
    ensures { (k : Reading) → last ≡ k.last → c ≡ slots_of k.cluster → read_as result ≡ cluster_answer (ended_of bytes.now k) }
{
    if last < 3 {
        return Err(Refused {
            refusal: Refusal::Missing,
            at: bytes.len(),
        });
    }
    Ok(c)
}

// Walks the fields by one reader, and gathers the former rows in cells that are zero.
fn walk(bytes: &[u8], rows: &mut [u32]) -> Result<Cluster, Refused>
    requires { rows.old ≡ replicate layout_cells 0 }
    ensures { (read_as result ≡ cluster_answer (read_cluster bytes.now))
        × (IsOk result → rows.new ≡ cells_of (read_cluster bytes.now).former) }
{
    let mut r = Reader { src: bytes, at: 0 };
    let mut c = Cluster::none();
    let mut last = 0u32;
    let mut next = 0;
    // A `while`: the record's bytes decide where the next field begins.
    while r.at < r.src.len() {
        let f = reader::next(r, cluster_reading::allowed_after(last), 0);
        let Field::Body { tag, start, len } = f else {
            return Err(f.refused());
        };
        // There may be 256 former rows, and none of them copies the cluster.
        if tag == 5 {
            if let Err(refusal) = row_faults::row_fault(r.src, c.bits, next, start, len) {
                return Err(Refused { refusal, at: r.at });
            }
            next = taking::take_row(rows, r.src, start, len);
        } else {
            if let Err(refusal) = faults::field_fault(r.src, c, tag, start) {
                return Err(Refused { refusal, at: r.at });
            }
            c = taking::cluster_with(r.src, c, tag, start);
        }
        last = tag as u32;
        r.at = start + len;
    }
    ended(r.src, last, c)
}

// Reads a cluster record. The former layout goes into the first 2,048 lent cells, all of them or, where the reading is
// refused, none.
pub fn read_cluster(bytes: &[u8], former: &mut [u32]) -> Result<Cluster, Refused>
    ensures { (read_as result ≡ read_cluster_of bytes.now former.old)
        × (former.new ≡ former_read bytes.now former.old) }
{
    if former.len() < Cluster::CELLS {
        return Err(Refused {
            refusal: Refusal::Buffer,
            at: 0,
        });
    }
    let mut rows = [0u32; Cluster::CELLS];
    let c = walk(bytes, &mut rows)?;
    cells::copy(&rows, former);
    Ok(c)
}
