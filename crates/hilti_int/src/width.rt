ghost use Rattle.std.specs.Prelude.{◌≡◌, ◌-◌, ◌%◌, ◌^◌};
ghost use Rattle.hilti_int.specs.Integers.{bits_of};

/// The bits of a whole number.
#[derive(Clone, Copy, Debug, PartialEq, Eq)]
pub enum Width {
    W8,
    W16,
    W32,
    W64,
}

impl Width {
    /// How many bits: 8, 16, 32 or 64.
    pub fn bits(self) -> u64
        ensures { result ≡ bits_of self }
    {
        match self {
            Width::W8 => 8,
            Width::W16 => 16,
            Width::W32 => 32,
            Width::W64 => 64,
        }
    }

    /// The greatest number, of which each bit is set.
    pub fn max(self) -> u64
        ensures { result ≡ 2 ^ bits_of self - 1 }
    {
        match self {
            Width::W8 => 0xff,
            Width::W16 => 0xffff,
            Width::W32 => 0xffff_ffff,
            Width::W64 => u64::MAX,
        }
    }
}

/// The number modulo 2 to the width's bits.
pub fn fit(width: Width, a: u64) -> u64
    ensures { result ≡ a % 2 ^ bits_of width }
{
    a & width.max()
}
