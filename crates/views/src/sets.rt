// A set is a byte, bit n for member n.
ghost use Rattle.std.specs.Prelude.{◌≡◌, ◌<◌, ◌≤◌};
ghost use Rattle.views.specs.Sets.{has, within as within_of, size as size_of, only as only_of, joined as joined_of, less as less_of, with_if as with_if_of};

// A bit of a byte, where there is one.
fn bit(set: u8, n: u8) -> bool
    requires { n < 8 }
    ensures { result ≡ has set n }
{
    (set >> n) % 2 == 1
}

// Whether n is a member: above 7 there is none.
#[tactic(auto, using(crate::proofs::Members::has_above))]
pub fn contains(set: u8, n: u8) -> bool
    ensures { result ≡ has set n }
{
    n < 8 && bit(set, n)
}

// Whether each member of a is a member of b.
pub fn within(a: u8, b: u8) -> bool
    ensures { result ≡ within_of a b }
{
    a | b == b
}

// How many members there are.
pub fn size(set: u8) -> u8
    ensures { result ≡ size_of set }
{
    set.count_ones() as u8
}

// The set {n}: empty above 7.
pub fn only(n: u8) -> u8
    ensures { result ≡ only_of n }
{
    if n < 8 { 1 << n } else { 0 }
}

// a joined with b.
pub fn joined(a: u8, b: u8) -> u8
    ensures { result ≡ joined_of a b }
{
    b | a
}

// a less member n.
pub fn less(a: u8, n: u8) -> u8
    ensures { result ≡ less_of a n }
{
    a & !only(n)
}

// a, joined with {n} where f holds: what a loop makes a set of.
#[tactic(auto, using(below::proofs::Tests::picks), unfolding(crate::specs::Sets::with_if))]
pub fn with_if(a: u8, n: u8, f: bool) -> u8
    ensures { result ≡ with_if_of a n f }
{
    if f { joined(a, only(n)) } else { a }
}
