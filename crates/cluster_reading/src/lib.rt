// Reading a cluster record field by field: what was read so far, which tags are allowed next, and the walk over the fields as it is defined.
#![tactic(auto)]

ghost use Rattle.std.specs.Prelude.{◌≡◌};
ghost use Rattle.fields.specs.ModelTags.{tags_of};
ghost use Rattle.cluster_reading.specs.RecordClusterReading.{allowed_after};

// The set of the tags that are allowed after a tag, 0 for none yet.
pub fn allowed_after(last: u32) -> u32
    ensures { tags_of result ≡ allowed_after last }
{
    if last < 3 {
        return sets::with(0, last + 1);
    }
    if last < 5 {
        return sets::with(sets::with(0, 4), 5);
    }
    sets::with(0, 5)
}
