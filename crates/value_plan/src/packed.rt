//! Values side by side in one number.
ghost use Rattle.std.specs.Prelude.{◌≡◌, ◌<◌, ◌≤◌, ◌+◌, ◌*◌, ◌^◌};

/// Values side by side, in so many bits.
#[derive(Clone, Copy)]
pub struct Packed {
    pub number: u128,
    pub bits: u32,
    ghost fits: { number < 2 ^ bits },
}

impl Packed {
    /// No values.
    pub fn new() -> Packed
        ensures number { result.number ≡ 0 }
        ensures bits { result.bits ≡ 0 }
    {
        Packed { number: 0, bits: 0 }
    }

    /// These values with one more below them.
    pub fn above(self, value: u8, bits: u32) -> Packed
        requires fits { value < 2 ^ bits }
        requires few { bits ≤ 8 }
        requires room { self.bits + bits ≤ 128 }
        ensures number { result.number ≡ value + 2 ^ bits * self.number }
        ensures bits { result.bits ≡ self.bits + bits }
    {
        Packed {
            number: (self.number << bits) + u128::from(value),
            bits: self.bits + bits,
        }
    }
}
