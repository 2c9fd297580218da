// The refusals of the paper: one list for all operations.
ghost use Rattle.std.specs.Prelude.{◌≡◌};
ghost use Rattle.cluster.specs.TermsRefusal.{number_of};

// Why an operation refuses, with the number by which C and the paper know it.
#[derive(Clone, Copy, PartialEq, Eq)]
pub enum Refusal {
    // One or two bytes left, or a body cut short.
    Cut = 1,
    // A tag that is not allowed next.
    Tag = 2,
    // A length that is not legal for the tag.
    Length = 3,
    // A value outside its range.
    Range = 4,
    // Ids or partitions that do not rise, or a row that is not the next.
    Order = 5,
    // More nodes than a cluster has.
    Nodes = 6,
    // The record ends before a field or row that it must have.
    Missing = 7,
    // A lent buffer is too short.
    Buffer = 8,
    // No layout is valid at size 1.
    NoLayout = 9,
    // A row that is not what a layout of this cluster has.
    Row = 10,
    // A row in too few zones.
    Zones = 11,
    // A node with more copies than its usable capacity takes, or than its ceiling allows.
    Capacity = 12,
    // An id to be added that is there already.
    Present = 13,
    // An id to be removed or resized that is not there.
    Absent = 14,
    // The totals of a layout record differ from its rows, or are missing.
    Totals = 15,
    // A cluster whose replication and redundancy are not both 3.
    Three = 16,
    // A node with a ceiling, where none may have one.
    Ceiling = 17,
    // A layout to go on from that check refuses at the largest size.
    Start = 18,
    // A layout is valid at a larger size.
    Larger = 19,
    // A layout valid at the size sends fewer copies.
    Fewer = 20,
    // An order in which some partition does not stand just once.
    Sequence = 21,
}

impl From<Refusal> for u32 {
    ghost from_gives = { λ refusal number. number ≡ number_of refusal };

    fn from(refusal: Refusal) -> u32 {
        refusal as u32
    }
}
