// The pairs that rows share, summed over the partitions.
ghost use Rattle.std.specs.Prelude.{◌≡◌, ◌≤◌, length};
ghost use Rattle.cluster.specs.Terms.{buffer_rows};
ghost use Rattle.agreement.specs.ModelAgreement.{agreement_in};

pub(crate) fn agreement_of(rows: &[u32], former: &[u32], partitions: usize) -> u32
    requires { (partitions ≤ buffer_rows) × (partitions ≤ length rows.now) × (partitions ≤ length former.now) }
    ensures { result ≡ agreement_in rows.now former.now partitions }
{
    let mut sum = 0;
    for p in 0..partitions {
        sum += sets::count(sets::meet(rows[p], former[p]));
    }
    sum
}
