// From rows of ids in lent cells to sets of nodes, as masks over the indices of a cluster's nodes in use.
#![tactic(auto)]

ghost use Rattle.std.specs.Prelude.{◌≡◌, ◌-◌, ◌≤◌, ◌<◌, List, length, take, drop};
ghost use Rattle.cluster.specs.Terms.{most_nodes, buffer_rows, wide_row_cells, wide_cells, topology, ids_of, row_of, ids_in};
ghost use Rattle.cluster.specs.declared.Node.{Node};
ghost use Rattle.masks.specs.ModelMasks.{id_cells, named, row_mask, masks_read, rows_formed};

use cluster::Cluster;
use incidence::zones;

// The ids of the nodes in use, then zeros. Rows are walked over the part of these that is in use: a cluster by value would be copied for each row.
pub fn ids_of(c: Cluster) -> [u32; Cluster::NODES]
    ensures { result ≡ id_cells (topology c).nodes }
{
    let n = zones::used(c);
    let mut ids = [0u32; Cluster::NODES];
    for b in 0..n {
        ids[b] = c.nodes[b].id;
    }
    ids
}

// The nodes, of those whose ids are given, that the ids of the row from cell `from` up to `to` name: one walk over both, each id past the nodes that
// are not above it.
fn walk_row(ids: &[u32], cells: &[u32], from: usize, to: usize) -> u32
    requires { (length ids.now ≤ most_nodes) × (from ≤ to) × (to ≤ length cells.now) }
    ensures { (ns : List Node) → ids.now ≡ ids_of ns → result ≡ named ns (ids_in (take (to - from) (drop from cells.now))) }
{
    let mut mask = 0;
    let mut b = 0;
    for i in from..to {
        let id = cells[i];
        if id == 0 {
            return mask;
        }
        // A `loop`: each cell goes on with the nodes where the one before it stopped.
        loop {
            if ids.len() <= b {
                return mask;
            }
            let own = ids[b];
            if id < own {
                break;
            }
            if id == own {
                mask = sets::with(mask, b as u32);
            }
            b += 1;
        }
    }
    mask
}

// The nodes, of those whose ids are given, that row `partition` of the cells names; none where the row is not there whole.
pub fn mask_of(ids: &[u32], cells: &[u32], partition: usize) -> u32
    requires { length ids.now ≤ most_nodes }
    ensures { (ns : List Node) → ids.now ≡ ids_of ns → result ≡ row_mask ns cells.now partition }
{
    if Cluster::PARTITIONS <= partition {
        return 0;
    }
    let from = partition * Cluster::ROW;
    let to = from + Cluster::ROW;
    if cells.len() < to {
        return 0;
    }
    walk_row(ids, cells, from, to)
}

// The nodes, of those whose ids are given, that wide row `partition` of the cells names.
pub fn wide_mask_of(ids: &[u32], cells: &[u32], partition: usize) -> u32
    requires { (length ids.now ≤ most_nodes) × (partition < buffer_rows) × (wide_cells ≤ length cells.now) }
    ensures { (ns : List Node) → ids.now ≡ ids_of ns → result ≡ named ns (ids_in (row_of wide_row_cells cells.now partition)) }
{
    let from = partition * Cluster::WIDE_ROW;
    walk_row(ids, cells, from, from + Cluster::WIDE_ROW)
}

// The nodes that row `partition` of the cells names; none where the row is not there whole. Ids that no node has are left out.
pub fn row_mask(c: Cluster, cells: &[u32], partition: usize) -> u32
    ensures { result ≡ row_mask (topology c).nodes cells.now partition }
{
    let n = zones::used(c);
    let ids = ids_of(c);
    mask_of(&ids[..n], cells, partition)
}

// Rows 0 .. partitions - 1 of the cells as masks, into the first cells of `masks`. Nothing is written where `partitions` is more than
// a buffer has rows or than `masks` has cells.
pub fn read_masks(c: Cluster, cells: &[u32], partitions: usize, masks: &mut [u32])
    ensures { masks.new ≡ masks_read (topology c).nodes cells.now partitions masks.old }
{
    if Cluster::PARTITIONS < partitions {
        return;
    }
    if masks.len() < partitions {
        return;
    }
    let n = zones::used(c);
    let all = ids_of(c);
    let ids = &all[..n];
    for p in 0..partitions {
        masks[p] = mask_of(ids, cells, p);
    }
}

// Whether the first `partitions` rows are there, at most as many as a buffer has, and each is rising ids followed by zeros.
pub fn rows_formed(cells: &[u32], partitions: usize) -> bool
    ensures { result ≡ rows_formed cells.now partitions }
{
    if Cluster::PARTITIONS < partitions {
        return false;
    }
    (0..partitions).all(|p| cell_rows::row_ids(cells, p).is_some())
}
