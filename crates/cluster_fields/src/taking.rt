// Taking in what a field says: a cluster with it, and the cells of the former rows with it.
ghost use Rattle.std.specs.Prelude.{◌≡◌, ℕ, ◌+◌, ◌≤◌, ◌<◌, length};
ghost use Rattle.cluster.specs.Terms.{most_copies, most_nodes, buffer_rows, layout_cells, Topology, Layout, cells_of};
ghost use Rattle.fields.specs.RecordField.{number_at, row_width};
ghost use Rattle.cluster_fields.specs.RecordClusterFaults.{item_in, with_item, former_with};
ghost use Rattle.cluster.specs.TermsReading.{slots_of};

use cluster::Cluster;

// A cluster with what a field says of it, which is no former row.
pub fn cluster_with(bytes: &[u8], c: Cluster, tag: u8, start: usize) -> Cluster
    requires { (1 ≤ tag) × (tag ≤ 4) × (tag ≡ 4 → c.count < most_nodes) }
    ensures { (t : Topology) (len : ℕ) → c ≡ slots_of t → result ≡ slots_of (with_item t (item_in bytes.now tag start len)) }
{
    let mut next = c;
    match tag {
        1 => next.bits = numbers::byte_at(bytes, start),
        2 => next.replication = numbers::byte_at(bytes, start),
        3 => next.redundancy = numbers::byte_at(bytes, start),
        _ => {
            next.nodes[c.count] = node_bytes::node_at(bytes, start);
            next.count += 1;
        }
    }
    next
}

// Takes a former row into its cells; answers the first partition that is not passed.
pub fn take_row(rows: &mut [u32], bytes: &[u8], start: usize, len: usize) -> usize
    requires { (length rows.old ≡ layout_cells) × (number_at bytes.now start 2 < buffer_rows) × (row_width 1 ≤ len) × (len ≤ row_width most_copies) × (start + len ≤ length bytes.now) }
    ensures { (F : Layout) → rows.old ≡ cells_of F → length F ≤ number_at bytes.now start 2
        → (rows.new ≡ cells_of (former_with F (item_in bytes.now 5 start len)))
        × (result ≡ length (former_with F (item_in bytes.now 5 start len))) }
{
    let partition = numbers::pair_at(bytes, start) as usize;
    id_bytes::put_ids(rows, bytes, partition, start + 2, (len - 2) / 4);
    partition + 1
}
