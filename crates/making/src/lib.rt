// A change that was read, and the nodes of a cluster without fault: its fault, its reverse, and the cluster with it.
#![tactic(auto)]

ghost use Rattle.std.specs.Prelude.{◌≡◌, ◌≤◌};
ghost use Rattle.cluster.specs.Terms.{most_nodes, topology, fault_of};
ghost use Rattle.cluster.specs.TermsReading.{slots_of};
ghost use Rattle.cluster.specs.TermsRefusal.{refusal_of};
ghost use Rattle.splices.specs.TermsReplaced.{with_nodes};
ghost use Rattle.making.specs.TermsMaking.{changed_nodes, reverse_of, change_out_of_range, change_fault};

use change_fields::Change;
use cluster::refusal::Refusal;
use cluster::{Cluster, Node};

// Whether a number of a change is out of its range.
#[tactic(auto, unfolding(crate::specs::TermsMaking::change_out_of_range))]
fn out_of_range(x: Change) -> bool
    ensures { result ≡ change_out_of_range x }
{
    match x {
        Change::Add { node } => node.out_of_range(),
        Change::Remove { id } | Change::Resize { id, .. } => id == 0,
    }
}

// The first fault of a change that was read, where there is one.
pub fn fault_of(c: Cluster, x: Change) -> Result<(), Refusal>
    requires { c.count ≤ most_nodes }
    ensures { refusal_of result ≡ change_fault (topology c).nodes x }
{
    if out_of_range(x) {
        return Err(Refusal::Range);
    }
    let is_there = 0 < splices::find(c, change_fields::id_of(x)).with;
    match x {
        Change::Add { .. } => {
            if is_there {
                return Err(Refusal::Present);
            }
            if Cluster::NODES <= c.count {
                return Err(Refusal::Nodes);
            }
        }
        Change::Remove { .. } | Change::Resize { .. } => {
            if !is_there {
                return Err(Refusal::Absent);
            }
        }
    }
    Ok(())
}

// The change that reverses another, by the nodes before that one is made.
#[tactic(auto, unfolding(crate::specs::TermsMaking::reverse_of))]
pub fn reverse_of(c: Cluster, x: Change) -> Change
    requires { c.count ≤ most_nodes }
    ensures { result ≡ reverse_of (topology c).nodes x }
{
    match x {
        Change::Add { node } => Change::Remove { id: node.id },
        Change::Remove { id } => Change::Add {
            node: splices::node_with(c, id),
        },
        Change::Resize { id, .. } => {
            let node = splices::node_with(c, id);
            Change::Resize {
                id,
                capacity: node.capacity,
            }
        }
    }
}

// The cluster with a change made that has no fault.
pub fn with_change(c: Cluster, x: Change) -> Cluster
    requires { (fault_of c ≡ 0) × (change_fault (topology c).nodes x ≡ 0) }
    ensures { result ≡ slots_of (with_nodes (topology c) (changed_nodes (topology c).nodes x)) }
{
    match x {
        Change::Add { node } => splices::replace(c, node.id, node, 1),
        Change::Remove { id } => splices::replace(c, id, Node::NONE, 0),
        Change::Resize { id, capacity } => {
            let mut node = splices::node_with(c, id);
            node.capacity = capacity;
            splices::replace(c, id, node, 1)
        }
    }
}
