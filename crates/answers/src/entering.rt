// A cluster that enters as its record.
ghost use Rattle.std.specs.Prelude.{◌≡◌};
ghost use Rattle.cluster_record.specs.RecordClusterAnswer.{read_as};
ghost use Rattle.answers.specs.TermsAnswers.{reading};

use cluster::Cluster;
use fields::Refused;

// Reads a cluster record where the cells of the former layout are not asked for.
pub fn read(bytes: &[u8]) -> Result<Cluster, Refused>
    ensures { read_as result ≡ reading bytes.now }
{
    let mut former = [0u32; Cluster::CELLS];
    cluster_record::read_cluster(bytes, &mut former)
}
