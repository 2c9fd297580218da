// The nodes of a cluster by rising id, where the node of one id gives way to another, to none, or comes in: one function of the slot for all
// three, so that no slot is left behind and those not in use are zero.
#![tactic(auto)]

ghost use Rattle.std.specs.Prelude.{◌≡◌, true, [], ◌∷◌, ◌+◌, ◌≤◌, ◌<◌, length, take, get_or};
ghost use Rattle.cluster.specs.Terms.{most_nodes, topology, no_node, ids_of, rising};
ghost use Rattle.cluster.specs.TermsReading.{slots_of};
ghost use Rattle.splices.specs.TermsReplaced.{nodes_below, nodes_with, node_with, replaced, with_nodes};
ghost use Rattle.splices.specs.ModelSplice.{spliced};

use cluster::{Cluster, Node};

// How many nodes have an id below one, and how many have it.
#[derive(Clone, Copy)]
pub struct Place {
    pub below: usize,
    pub with: usize,
}

// The place of an id among the nodes in use.
pub fn find(c: Cluster, id: u32) -> Place
    requires { c.count ≤ most_nodes }
    ensures { (result.below ≡ length (nodes_below id (topology c).nodes)) × (result.with ≡ length (nodes_with id (topology c).nodes)) }
{
    let nodes = &c.nodes[..c.count];
    let mut below = 0;
    let mut with = 0;
    for node in nodes {
        if node.id < id {
            below += 1;
        }
        if node.id == id {
            with += 1;
        }
    }
    Place { below, with }
}

// The node of an id; a slot that is not in use where there is none.
pub fn node_with(c: Cluster, id: u32) -> Node
    requires { c.count ≤ most_nodes }
    ensures { result ≡ node_with id (topology c).nodes }
{
    let nodes = &c.nodes[..c.count];
    match nodes.iter().find(|node| node.id == id) {
        Some(node) => *node,
        None => Node::NONE,
    }
}

// Slot b of the cluster in which `out` nodes from place `at` on give way to `new` times a node.
fn slot(c: Cluster, at: usize, out: usize, node: Node, new: usize, b: usize) -> Node
    requires { (c.count ≤ most_nodes) × (at + out ≤ c.count) × (new ≤ 1) × (b < most_nodes) }
    ensures { result ≡ get_or (spliced (topology c).nodes at out (take new (node ∷ []))) b no_node }
{
    if b < at {
        return c.nodes[b];
    }
    if b < at + new {
        return node;
    }
    let from = b - new + out;
    if from < c.count {
        return c.nodes[from];
    }
    Node::NONE
}

// The cluster in which the node of an id, if there is one, gives way to `new` times a node; its other slots are zero.
pub fn replace(c: Cluster, id: u32, node: Node, new: usize) -> Cluster
    requires { (c.count ≤ most_nodes) × (rising (ids_of (topology c).nodes) ≡ true) × (new ≤ 1)
        × (c.count + new ≤ most_nodes + length (nodes_with id (topology c).nodes)) }
    ensures { result ≡ slots_of (with_nodes (topology c) (replaced id (take new (node ∷ [])) (topology c).nodes)) }
{
    let place = find(c, id);
    let mut nodes = [Node::NONE; Cluster::NODES];
    for b in 0..Cluster::NODES {
        nodes[b] = slot(c, place.below, place.with, node, new, b);
    }
    Cluster {
        count: c.count + new - place.with,
        nodes,
        ..c
    }
}
