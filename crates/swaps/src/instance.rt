// What stays while rows are improved.

// What a run of improvements is given: the former rows as sets of nodes and the partitions that each node held, how many partitions there are, for each
// node the nodes of its zone and the most copies that it may hold, and how many zones a row needs.
#[derive(Clone, Copy)]
pub struct Instance<'a> {
    pub former: &'a [u32],
    pub had: &'a [u32],
    pub partitions: usize,
    pub mates: &'a [u32],
    pub caps: &'a [u32],
    pub z: u32,
}
