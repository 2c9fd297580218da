// A cluster in hand: its limits, its nodes, and what makes it acceptable.
#![tactic(auto)]

ghost use Rattle.std.specs.Prelude.{◌≡◌, ◌^◌, ◌≤◌, ◌<◌, min};
ghost use Rattle.cluster.specs.TermsReading.{no_nodes};
ghost use Rattle.cluster.specs.TermsRefusal.{refusal_of};
ghost use Rattle.cluster.specs.Terms.{most_bits, buffer_rows, no_node, usable, takes, node_out_of_range, fault_of};

use refusal::Refusal;

mod faults;
pub mod refusal;

// A node ("box" in the papers): one storage box of the cluster.
#[derive(Clone, Copy)]
pub struct Node {
    pub id: u32,
    pub zone: u16,
    pub capacity: u32,
    // The most copies that it may hold.
    pub ceiling: u16,
}

impl Node {
    // A slot that is not in use.
    pub const NONE: Node = Node {
        id: 0,
        zone: 0,
        capacity: 0,
        ceiling: 0,
    };

    // What of the node's disk may be filled: a sixteenth of it stays free. That the capacity is a number of 32 bits is known here, and told
    // with it.
    pub fn usable(self) -> u32
        ensures { (result ≡ usable self) × (self.capacity < 2 ^ 32) }
    {
        self.capacity - self.capacity / 16
    }

    // Whether the node takes so many copies at a size.
    pub fn takes(self, copies: u32, size: u32) -> bool
        ensures { result ≡ takes self copies size }
    {
        if (self.ceiling as u32) < copies {
            return false;
        }
        let usable = self.usable();
        (copies as u64) * (size as u64) <= usable as u64
    }

    // Whether its id or its ceiling is out of range.
    pub fn out_of_range(self) -> bool
        ensures { result ≡ node_out_of_range self }
    {
        if self.id == 0 {
            return true;
        }
        Cluster::CEILING < self.ceiling
    }
}

// The number of partitions that bits make; more bits than a cluster has count as the most.
pub fn partitions(bits: u32) -> usize
    ensures { (result ≡ 2 ^ min bits most_bits) × (result ≤ buffer_rows) }
{
    if bits < Cluster::BITS {
        1 << bits
    } else {
        Cluster::PARTITIONS
    }
}

// A cluster by value. Only the first `count` nodes are in use; the other slots are not looked at.
#[derive(Clone, Copy)]
pub struct Cluster {
    pub bits: u32,
    pub replication: u32,
    pub redundancy: u32,
    pub count: usize,
    pub nodes: [Node; Cluster::NODES],
}

impl Cluster {
    // The most partition bits: a cluster has 2 ^ bits partitions.
    pub const BITS: u32 = 8;
    // The most copies of a partition.
    pub const REPLICATION: u32 = 8;
    // The most nodes.
    pub const NODES: usize = 32;
    // The highest ceiling of a node.
    pub const CEILING: u16 = 256;
    // The cells of a row in a lent buffer: as many as a partition has copies at most.
    pub const ROW: usize = Cluster::REPLICATION as usize;
    // The rows of a lent layout.
    pub const PARTITIONS: usize = 1 << Cluster::BITS;
    // The cells of a lent layout.
    pub const CELLS: usize = Cluster::PARTITIONS * Cluster::ROW;
    // The cells of a row in a lent buffer that holds what nodes hold between two layouts.
    pub const WIDE_ROW: usize = 16;
    // The cells of such a buffer.
    pub const WIDE_CELLS: usize = Cluster::PARTITIONS * Cluster::WIDE_ROW;
    // The cells of the lent scratch.
    pub const SCRATCH: usize = 16384;
    // The cells of the lent figures: two for each node.
    pub const FIGURES: usize = 2 * Cluster::NODES;
    // The largest size of a layout.
    pub const SIZE: u32 = 4294967295;
    // The most copies to be sent: every copy of every partition.
    pub const SENT: u32 = 2048;
    // The larger verdict: 1 finished, 0 stopped.
    pub const VERDICT: u32 = 1;
    // The most improvements.
    pub const IMPROVEMENTS: u32 = 2048;

    // The cluster with no nodes, which a refused reading yields.
    pub fn none() -> Cluster
        ensures { result ≡ no_nodes }
    {
        Cluster {
            bits: 0,
            replication: 1,
            redundancy: 1,
            count: 0,
            nodes: [Node::NONE; Cluster::NODES],
        }
    }

    // Accepts a cluster in hand, or refuses it by its first fault, as planning and check do: too many nodes, a number of it or of a
    // node out of range, ids not rising.
    pub fn accept(self) -> Result<(), Refusal>
        ensures { refusal_of result ≡ fault_of self }
    {
        if Cluster::NODES < self.count {
            return Err(Refusal::Nodes);
        }
        if faults::out_of_range(self) {
            return Err(Refusal::Range);
        }
        if !faults::ids_rise(self) {
            return Err(Refusal::Order);
        }
        Ok(())
    }
}
