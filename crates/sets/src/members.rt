// The members of a set one after another, from the least on.
ghost use Rattle.std.specs.Iterator.{at_most};
ghost use Rattle.sets.specs.ModelBits.{count_of};
ghost use Rattle.sets.specs.ModelMembers.{Steps};

// The members that are still to come, as a set.
#[derive(Clone, Copy)]
pub struct Members {
    pub left: u32,
}

impl Iterator for Members {
    type Item = u32;

    ghost next_gives = { λ s r t. Steps s.left r t.left };

    ghost remaining = { λ s. at_most (count_of s.left) };

    fn next(&mut self) -> Option<u32> {
        if self.left == 0 {
            return None;
        }
        let least = super::least(self.left);
        self.left = super::rest(self.left);
        Some(least)
    }
}
