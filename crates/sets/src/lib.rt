// Sets of numbers below WIDTH, each in one u32 by shifts and masks. Every function is total: a number of WIDTH or more is no member of any set.
#![tactic(auto)]

ghost use Rattle.std.specs.Prelude.{◌≡◌};
ghost use Rattle.sets.specs.ModelBits.{member_of, with_of, without_of, union_of, meet_of, difference_of, below_of, count_of, least_of};

use members::Members;

pub mod members;

// How many numbers a set can hold: the digits of a u32.
pub const WIDTH: u32 = 32;

// Whether i is a member of s.
pub fn member(s: u32, i: u32) -> bool
    ensures { result ≡ member_of s i }
{
    if i < WIDTH { (s >> i) % 2 == 1 } else { false }
}

// The members of s, and i; s itself where i is WIDTH or more.
pub fn with(s: u32, i: u32) -> u32
    ensures { result ≡ with_of s i }
{
    if i < WIDTH { s | (1 << i) } else { s }
}

// The members of s but i; s itself where i is WIDTH or more.
pub fn without(s: u32, i: u32) -> u32
    ensures { result ≡ without_of s i }
{
    if i < WIDTH { s & !(1 << i) } else { s }
}

// The members of s but the least.
pub fn rest(s: u32) -> u32
    ensures { result ≡ without_of s (least_of s) }
{
    if s == 0 { 0 } else { s & (s - 1) }
}

// The members of s and those of t.
pub fn union(s: u32, t: u32) -> u32
    ensures { result ≡ union_of s t }
{
    s | t
}

// The members that s and t share.
pub fn meet(s: u32, t: u32) -> u32
    ensures { result ≡ meet_of s t }
{
    s & t
}

// The members of s that t lacks.
pub fn difference(s: u32, t: u32) -> u32
    ensures { result ≡ difference_of s t }
{
    s & !t
}

// The set of the numbers below n; all of them where n is WIDTH or more.
pub fn below(n: u32) -> u32
    ensures { result ≡ below_of n }
{
    if n < WIDTH { (1 << n) - 1 } else { u32::MAX }
}

// How many members s has.
pub fn count(s: u32) -> u32
    ensures { result ≡ count_of s }
{
    u32::count_ones(s)
}

// The least member of s; WIDTH where s is empty.
pub fn least(s: u32) -> u32
    ensures { result ≡ least_of s }
{
    u32::trailing_zeros(s)
}

// The members of s one after another, from the least on.
pub fn iter(s: u32) -> Members
    ensures { result.left ≡ s }
{
    Members { left: s }
}
