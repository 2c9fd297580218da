// From sets of nodes, as masks over the indices of a cluster's nodes in use, to rows of ids in lent cells.
#![tactic(auto)]

ghost use Rattle.std.specs.Prelude.{◌≡◌, ◌+◌, ◌≤◌, List, length, get_or, ltb, cond};
ghost use Rattle.sets.specs.ModelBits.{bit};
ghost use Rattle.cells.specs.ModelCells.{put};
ghost use Rattle.cluster.specs.Terms.{most_nodes, row_cells, topology, ids_of};
ghost use Rattle.cluster.specs.declared.Node.{Node};
ghost use Rattle.incidence.specs.ModelIncidence.{ids_where};
ghost use Rattle.mask_cells.specs.ModelMaskCells.{cells_written};

use cluster::Cluster;
use incidence::zones;

// The mask of partition p where it is one of the first `partitions`, else the empty one.
fn mask_at(masks: &[u32], partitions: usize, p: usize) -> u32
    requires { partitions ≤ length masks.now }
    ensures { result ≡ cond (ltb p partitions) (get_or masks.now p 0) 0 }
{
    if p < partitions { masks[p] } else { 0 }
}

// Zeros into the row that starts at cell `from`.
fn blank_row(cells: &mut [u32], from: usize)
    requires { from + row_cells ≤ length cells.old }
    ensures { cells.new ≡ put from (λ _. 0) row_cells cells.old }
{
    cells[from..from + Cluster::ROW].fill(0);
}

// The ids of the first eight nodes of the mask, of those whose ids are given, then zeros, into the row that starts at cell `from`.
pub fn write_row(ids: &[u32], mask: u32, cells: &mut [u32], from: usize)
    requires { (length ids.now ≤ most_nodes) × (from + row_cells ≤ length cells.old) }
    ensures { (ns : List Node) → ids.now ≡ ids_of ns
        → cells.new ≡ put from (λ j. get_or (ids_where ns (bit mask)) j 0) row_cells cells.old }
{
    blank_row(cells, from);
    let mut nodes = sets::iter(mask);
    for j in 0..Cluster::ROW {
        let Some(node) = nodes.next() else {
            return;
        };
        let b = node as usize;
        let id = if b < ids.len() { ids[b] } else { 0 };
        cells[from + j] = id;
    }
}

// The layout whose row p has the ids of the nodes in masks[p], at most eight, for p below `partitions`, into the first cells: those of a
// whole buffer, rows from `partitions` on zero. Nothing is written where the cells are fewer, or `partitions` is more than a buffer has
// rows or than there are masks.
pub fn write_cells(c: Cluster, masks: &[u32], partitions: usize, cells: &mut [u32])
    ensures { cells.new ≡ cells_written (topology c).nodes masks.now partitions cells.old }
{
    if Cluster::PARTITIONS < partitions {
        return;
    }
    if masks.len() < partitions {
        return;
    }
    if cells.len() < Cluster::CELLS {
        return;
    }
    let n = zones::used(c);
    let all = masks::ids_of(c);
    let ids = &all[..n];
    for p in 0..Cluster::PARTITIONS {
        let mask = mask_at(masks, partitions, p);
        write_row(ids, mask, cells, p * Cluster::ROW);
    }
}
