ghost use Rattle.std.specs.Prelude.{◌≡◌, ◌≢◌, ◌↔◌, ◌<◌, ◌^◌, ◌++◌, Bool, length, Err, IfOk, IsNone, IfSome};
ghost use Rattle.std.specs.Prelude.{IsTrue};
ghost use Rattle.hilti_pcap.specs.declared.header.HeaderFault.TheVariants as faults;
ghost use Rattle.hilti_pcap.specs.Headers.{number, short_number, spelled, HasOtherVersion, IsHeader};
ghost use Rattle.hilti_pcap.specs.Headers.{LacksMagic};

/// What a capture's header says of the bytes behind it.
#[derive(Clone, Copy, Debug, PartialEq, Eq)]
pub struct Header {
    /// Whether numbers are in big-endian order; else they are in little-endian order.
    pub big: bool,
    /// Whether fractions of a second are nanoseconds; else they are microseconds.
    pub nanos: bool,
    /// The kind of network that packets were captured from, whatever it is.
    pub network: u32,
}

/// Why 24 bytes are no header.
#[derive(Clone, Copy, Debug, PartialEq, Eq)]
pub enum HeaderFault {
    /// The first four bytes are none of the four spellings of the magic number.
    BadMagic,
    /// Another version than 2.4 stands behind the magic number.
    BadVersion,
}

/// The byte order of a capture, and the unit of its fractions.
#[derive(Clone, Copy)]
struct Spelling {
    big: bool,
    nanos: bool,
}

/// What the 24 bytes of a header say. It takes no memory.
pub fn read_header(bytes: &[u8; 24]) -> Result<Header, HeaderFault>
    ensures header { IfOk result (λ header. IsHeader header bytes.now) }
    ensures bad_magic { result ≡ Err faults.BadMagic → LacksMagic bytes.now }
    ensures bad_version { result ≡ Err faults.BadVersion → HasOtherVersion bytes.now }
{
    let (magic, rest) = bytes.split_at(4);
    let (version, rest) = rest.split_at(4);
    let (_others, network) = rest.split_at(12);
    let Some(Spelling { big, nanos }) = spelling_of(magic) else {
        return Err(HeaderFault::BadMagic);
    };
    if !is_version(big, version) {
        return Err(HeaderFault::BadVersion);
    }
    let network = number_of(big, network);
    Ok(Header {
        big,
        nanos,
        network,
    })
}

/// How a magic number is spelled; `None` exactly where it is none.
fn spelling_of(magic: &[u8]) -> Option<Spelling>
    ensures some { IfSome result (λ spelling. magic.now ≡ spelled spelling.big spelling.nanos) }
    ensures none { IsNone result → (big nanos : Bool) → magic.now ≢ spelled big nanos }
{
    let (big, nanos) = if magic == [0xa1, 0xb2, 0xc3, 0xd4].as_slice() {
        (true, false)
    } else if magic == [0xa1, 0xb2, 0x3c, 0x4d].as_slice() {
        (true, true)
    } else if magic == [0xd4, 0xc3, 0xb2, 0xa1].as_slice() {
        (false, false)
    } else if magic == [0x4d, 0x3c, 0xb2, 0xa1].as_slice() {
        (false, true)
    } else {
        return None;
    };
    Some(Spelling { big, nanos })
}

/// Whether four bytes are version 2.4.
fn is_version(big: bool, version: &[u8]) -> bool
    ensures { IsTrue result ↔ (version.now ≡ short_number big 2 ++ short_number big 4) }
{
    if big {
        version == [0, 2, 0, 4].as_slice()
    } else {
        version == [2, 0, 4, 0].as_slice()
    }
}

/// The number that four bytes write.
pub fn number_of(big: bool, digits: &[u8]) -> u32
    requires { length digits.now ≡ 4 }
    ensures written { digits.now ≡ number big result }
    ensures fits { result < 2 ^ 32 }
{
    let digits = [digits[0], digits[1], digits[2], digits[3]];
    if big {
        u32::from_be_bytes(digits)
    } else {
        u32::from_le_bytes(digits)
    }
}
