// The faults of a cluster in hand, over the nodes in use only.
ghost use Rattle.std.specs.Prelude.{◌≡◌, ◌≤◌};
ghost use Rattle.cluster.specs.Terms.{most_nodes, topology, ids_of, rising, some_out_of_range, out_of_range};

use super::Cluster;

// Whether a number of a node in use is out of its range.
fn some_out_of_range(c: Cluster) -> bool
    requires { c.count ≤ most_nodes }
    ensures { result ≡ some_out_of_range (topology c).nodes }
{
    for i in 0..c.count {
        if c.nodes[i].out_of_range() {
            return true;
        }
    }
    false
}

// Whether a number of the cluster or of a node in use is out of its range.
pub(crate) fn out_of_range(c: Cluster) -> bool
    requires { c.count ≤ most_nodes }
    ensures { result ≡ out_of_range (topology c) }
{
    if Cluster::BITS < c.bits {
        return true;
    }
    if c.replication == 0 {
        return true;
    }
    if Cluster::REPLICATION < c.replication {
        return true;
    }
    if c.redundancy == 0 {
        return true;
    }
    if c.replication < c.redundancy {
        return true;
    }
    some_out_of_range(c)
}

// Whether the used ids rise.
pub(crate) fn ids_rise(c: Cluster) -> bool
    requires { c.count ≤ most_nodes }
    ensures { result ≡ rising (ids_of (topology c).nodes) }
{
    let mut last = 0;
    for i in 0..c.count {
        let id = c.nodes[i].id;
        if id <= last {
            return false;
        }
        last = id;
    }
    true
}
