// Sets of places below 32, one bit of a u32 for each place (01: "One u32 of given places per kind").
#![tactic(auto)]

ghost use Rattle.std.specs.Prelude.{◌≡◌, ◌≤◌, ◌<◌};
ghost use Rattle.loader_bit_set.specs.Places.{has_place, with_place, lacking};

// Whether the index i is in the set.
pub fn has_place(set: u32, i: u32) -> bool
    requires { i < 32 }
    ensures { result ≡ has_place set i }
{
    (set >> i) % 2 == 1
}

// The set with the index i.
pub fn with_place(set: u32, i: u32) -> u32
    requires { i < 32 }
    ensures { result ≡ with_place set i }
{
    set | 1 << i
}

// How many of the indices below n the set lacks: the ones of its complement within n bits.
pub fn count_lacking(set: u32, n: u32) -> u32
    requires { (1 ≤ n) × (n ≤ 32) }
    ensures { (result ≡ lacking set n) × (result ≤ n) }
{
    u32::count_ones(!set & (0xffff_ffff >> (32 - n)))
}
