// Integers as payloads: signed, of 64 bits, in two's complement.
ghost use Rattle.std.specs.Prelude.{◌≡◌};
ghost use Rattle.values.specs.Integers.{sum_of, difference_of, less_of};

// The sum, wrapped at 64 bits.
#[tactic(auto, unfolding(crate::specs::Integers::sum_of))]
pub fn sum(p: u64, q: u64) -> u64
    ensures { result ≡ sum_of p q }
{
    p.wrapping_add(q)
}

// The difference, wrapped at 64 bits.
#[tactic(auto, unfolding(crate::specs::Integers::difference_of))]
pub fn difference(p: u64, q: u64) -> u64
    ensures { result ≡ difference_of p q }
{
    p.wrapping_sub(q)
}

// Whether p is less than q, both signed.
pub fn less_than(p: u64, q: u64) -> bool
    ensures { result ≡ less_of p q }
{
    p.cast_signed() < q.cast_signed()
}
