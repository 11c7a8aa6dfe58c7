// Tests as numbers.
#![tactic(auto)]

ghost use Rattle.std.specs.Prelude.{◌≡◌, ◌+◌, ◌≤◌};
ghost use Rattle.bools.specs.Bit.{bit};

pub fn bit_of(b: bool) -> u8
    ensures value { result ≡ bit b }
    ensures small { result ≤ 1 }
{
    if b { 1 } else { 0 }
}

// How many of four hold.
pub fn how_many(a: bool, b: bool, c: bool, d: bool) -> u8
    ensures value { result ≡ bit a + (bit b + (bit c + bit d)) }
    ensures small { result ≤ 4 }
{
    bit_of(a) + (bit_of(b) + (bit_of(c) + bit_of(d)))
}
