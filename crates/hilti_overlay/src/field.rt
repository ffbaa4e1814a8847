ghost use Rattle.std.specs.Prelude.{◌≡◌};
ghost use Rattle.hilti_overlay.specs.Fields.{size_of};

/// How the bytes of a field are read.
#[derive(Clone, Copy, Debug, PartialEq, Eq)]
pub enum Form {
    U8,
    U16Big,
    U32Big,
    U64Big,
    U16Little,
    U32Little,
    U64Little,
    /// An IPv4 address, the highest byte first.
    Ipv4,
    /// An address of 16 bytes, the highest byte first.
    Ipv6,
    /// A TCP port, the higher byte first.
    PortTcp,
    /// A UDP port, the higher byte first.
    PortUdp,
    /// So many bytes as they are.
    Bytes(u16),
}

impl Form {
    /// How many bytes a field of this form has.
    pub fn size(self) -> u64
        ensures { result ≡ size_of self }
    {
        match self {
            Form::U8 => 1,
            Form::U16Big | Form::U16Little | Form::PortTcp | Form::PortUdp => 2,
            Form::U32Big | Form::U32Little | Form::Ipv4 => 4,
            Form::U64Big | Form::U64Little => 8,
            Form::Ipv6 => 16,
            Form::Bytes(size) => u64::from(size),
        }
    }
}

/// A field: how far behind the place that is asked for it begins, its form, and the first and last of the bits that
/// are its value, where bit 0 is the lowest.
#[derive(Clone, Copy, Debug, PartialEq, Eq)]
pub struct Unpack {
    pub offset: u64,
    pub form: Form,
    pub bits: Option<(u8, u8)>,
}

/// The value of a field.
#[derive(Clone, Copy, Debug, PartialEq, Eq)]
pub enum Scalar {
    Int(u64),
    /// An address, as the number of its IPv6 form.
    Addr(u128),
    /// A port's number, and whether it is one of UDP.
    Port(u16, bool),
    /// Where the bytes of the field begin in the piece, and how many they are.
    Range { start: u64, len: u64 },
}

/// A field reaches past the end of the bytes.
#[derive(Clone, Copy, Debug, PartialEq, Eq)]
pub struct PastEnd;
