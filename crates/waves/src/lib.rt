// Waves over a graph of at most Cluster::NODES nodes: leads[u] is the set of the nodes that u leads to.
#![tactic(auto)]

ghost use Rattle.std.specs.Prelude.{◌≡◌, ◌≤◌, ◌<◌, length, unwrap_or, IfSome};
ghost use Rattle.cluster.specs.Terms.{most_nodes};
ghost use Rattle.sets.specs.ModelBits.{mask_bits};
ghost use Rattle.waves.specs.ModelWaves.{wave_cells, spread_of, Waved, source_of};

use cluster::Cluster;

// The cells of the waves from a node.
pub const WAVES: usize = Cluster::NODES + 1;

// The nodes that the members of a set lead to.
fn spread(leads: &[u32], set: u32) -> u32
    requires { most_nodes ≤ length leads.now }
    ensures { result ≡ spread_of leads.now set }
{
    let mut to = 0;
    for u in sets::iter(set) {
        to = sets::union(to, leads[u as usize]);
    }
    to
}

// The waves from node b, until one meets the goal: the number of that wave, if one does. Each has the nodes that the one before leads to
// and that no wave had before. A `while`: it ends where a wave meets the goal or is empty, and no count says beforehand how many come before that.
pub fn waves(leads: &[u32], b: u32, goal: u32, waves: &mut [u32]) -> Option<usize>
    requires { (most_nodes ≤ length leads.now) × (b < most_nodes) × (wave_cells ≤ length waves.old) }
    ensures { Waved leads.now b goal (unwrap_or result wave_cells) waves.new × IfSome result (λ k. k < wave_cells)
        × (length waves.new ≡ length waves.old) }
{
    let mut wave = sets::with(0, b);
    let mut seen = wave;
    let mut k = 0;
    waves[0] = wave;
    while sets::meet(wave, goal) == 0 {
        wave = sets::difference(spread(leads, wave), seen);
        if wave == 0 {
            return None;
        }
        k += 1;
        waves[k] = wave;
        seen = sets::union(seen, wave);
    }
    Some(k)
}

// The least member of a set that leads to v, if one does.
pub fn source(leads: &[u32], set: u32, v: u32) -> Option<u32>
    requires { most_nodes ≤ length leads.now }
    ensures { (unwrap_or result mask_bits ≡ source_of leads.now set v) × IfSome result (λ u. u < mask_bits) }
{
    for u in sets::iter(set) {
        if sets::member(leads[u as usize], v) {
            return Some(u);
        }
    }
    None
}
