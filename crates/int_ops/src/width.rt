// The number of bits of a sized integer type.
ghost use Rattle.std.specs.Prelude.{◌≤◌, ◌≡◌, ◌↔◌, IsSome, IfSome};

/// A number of bits from 1 to 64.
#[derive(Clone, Copy, PartialEq, Eq, Debug)]
pub struct BitWidth {
    pub bits: u32,
    pub ghost at_least_one: { 1 ≤ bits },
    pub ghost at_most_64: { bits ≤ 64 },
}

impl BitWidth {
    /// The width of this many bits, where an integer type may have it.
    pub fn new(bits: u32) -> Option<Self>
        ensures found { IsSome result ↔ ((1 ≤ bits) × (bits ≤ 64)) }
        ensures value { IfSome result (λ width. width.bits ≡ bits) }
    {
        if 1 <= bits && bits <= 64 {
            Some(BitWidth { bits })
        } else {
            None
        }
    }
}
