// The faults of what a field says, in the paper's order: a value outside its range, an id or partition not rising, too
// many nodes.
ghost use Rattle.std.specs.Prelude.{◌≡◌, ◌||◌, cond, ℕ, ◌≤◌, ltb, leb};
ghost use Rattle.cluster.specs.Terms.{most_nodes, topology, ids_of, node_out_of_range};
ghost use Rattle.cluster.specs.TermsRefusal.{refusal_of};
ghost use Rattle.cluster_fields.specs.RecordClusterFaults.{item_in, last_of, fault_in};

use cluster::refusal::Refusal;
use cluster::{Cluster, Node};

// Of a number from `least` to `most`.
fn number_fault(least: u32, most: u32, value: u32) -> Result<(), Refusal>
    ensures { refusal_of result ≡ cond (ltb value least || ltb most value) 4 0 }
{
    if value < least || most < value {
        return Err(Refusal::Range);
    }
    Ok(())
}

// The id of the last node, 0 where there is none.
fn last_id(c: Cluster) -> u32
    requires { c.count ≤ 32 }
    ensures { result ≡ last_of 0 (ids_of (topology c).nodes) }
{
    let n = c.count;
    if n == 0 {
        return 0;
    }
    c.nodes[n - 1].id
}

// Of a node, after so many nodes, the last of which has the id `last`.
fn node_fault(count: usize, last: u32, node: Node) -> Result<(), Refusal>
    ensures { refusal_of result ≡ cond (node_out_of_range node) 4 (cond (leb node.id last) 5 (cond (leb most_nodes count) 6 0)) }
{
    if node.out_of_range() {
        return Err(Refusal::Range);
    }
    if node.id <= last {
        return Err(Refusal::Order);
    }
    if Cluster::NODES <= count {
        return Err(Refusal::Nodes);
    }
    Ok(())
}

// Of a whole field that is no former row.
pub fn field_fault(bytes: &[u8], c: Cluster, tag: u8, start: usize) -> Result<(), Refusal>
    requires { (c.count ≤ most_nodes) × (1 ≤ tag) × (tag ≤ 4) }
    ensures { (next len : ℕ) → refusal_of result ≡ fault_in (topology c) next (item_in bytes.now tag start len) }
{
    match tag {
        1 => number_fault(0, Cluster::BITS, numbers::byte_at(bytes, start)),
        2 => number_fault(1, Cluster::REPLICATION, numbers::byte_at(bytes, start)),
        3 => number_fault(1, c.replication, numbers::byte_at(bytes, start)),
        _ => node_fault(c.count, last_id(c), node_bytes::node_at(bytes, start)),
    }
}
