// Changes of the nodes of a cluster in hand, one at a time, each with the change that reverses it.
#![tactic(auto)]

ghost use Rattle.std.specs.Prelude.{ℕ, ◌≡◌};
ghost use Rattle.cluster.specs.Terms.{fault_of};
ghost use Rattle.changes.specs.TermsChanges.{outcome_as, made_as, change_read, change_of};
ghost use Rattle.changes.specs.TermsUndo.{Owed};

use change_fields::{Change, Reverse};
use cluster::Cluster;
use cluster::refusal::Refusal;
use fields::Field;

// What an accepted change answers: the byte after it, and its reverse. A refusal is an error, and the byte that goes with it is the given one.
#[derive(Clone, Copy)]
pub struct Done {
    pub next: usize,
    pub reverse: Reverse,
}

// A change that was read and ends before byte `next`.
fn applied(c: Cluster, x: Change, next: usize) -> Result<(Cluster, Done), Refusal>
    requires { fault_of c ≡ 0 }
    ensures { (at : ℕ) → made_as c at result ≡ change_read c x at next }
{
    making::fault_of(c, x)?;
    // The reverse of a removal is the node, so it is taken before the node is gone.
    let reverse = change_fields::to_bytes(making::reverse_of(c, x));
    Ok((making::with_change(c, x), Done { next, reverse }))
}

// The change at a byte of a record, made on a cluster by value: the cluster that it leaves, and what is answered.
pub fn changed(c: Cluster, bytes: &[u8], at: usize) -> Result<(Cluster, Done), Refusal>
    ensures { (made_as c at result ≡ change_of c bytes.now at) × Owed c bytes.now at }
{
    c.accept()?;
    if bytes.len() <= at {
        return Err(Refusal::Missing);
    }
    let f = fields::field_in(bytes, at, change_fields::tags(), 0);
    let Field::Body { tag, start, len } = f else {
        return Err(f.refused().refusal);
    };
    applied(c, change_fields::change_in(bytes, tag, start), start + len)
}

// The change at a byte of a record, made on the cluster in hand; refused, it alters nothing.
pub fn change(c: &mut Cluster, bytes: &[u8], at: usize) -> Result<Done, Refusal>
    ensures { (outcome_as at result ≡ (change_of c.old bytes.now at).answer)
        × (c.new ≡ (change_of c.old bytes.now at).cluster)
        × Owed c.old bytes.now at }
{
    let (cluster, done) = changed(*c, bytes, at)?;
    *c = cluster;
    Ok(done)
}

// The same with plain parameters: a cluster in, and the cluster out.
pub fn in_hand(c: Cluster, bytes: &[u8], at: usize) -> Result<(Cluster, Done), Refusal>
    ensures { (made_as c at result ≡ change_of c bytes.now at) × Owed c bytes.now at }
{
    let mut own = c;
    let done = change(&mut own, bytes, at)?;
    Ok((own, done))
}
