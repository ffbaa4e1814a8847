ghost use Rattle.std.specs.Prelude.{◌≡◌, ◌+◌, ◌<◌, ◌≤◌, ◌↔◌, IsTrue, SomeIff};
ghost use Rattle.hilti_addr.specs.Masks.{mapped, masked, most_bits, net_of};
ghost use Rattle.hilti_addr.specs.Masks as masks;

/// What the IPv6 form of an IPv4 address has before it.
const MAPPED: u128 = 0xffff_0000_0000;

/// The bits of an address.
const BITS: u8 = 128;

/// The bits before an IPv4 address in its IPv6 form.
const BITS_ABOVE: u8 = 96;

/// The addresses whose first bits are those of one address.
#[derive(Clone, Copy, Debug, PartialEq, Eq)]
pub struct Net {
    pub addr: u128,
    /// How many bits, counted from the 128-bit top.
    pub len: u8,
}

/// The address of an IPv4 address's number.
pub fn v4(n: u32) -> u128
    ensures { result ≡ mapped n }
{
    MAPPED + u128::from(n)
}

/// Whether the address is in `::ffff:0:0/96`, so the form of an IPv4 address.
pub fn is_mapped(a: u128) -> bool
    ensures { result ≡ masks.is_mapped a }
{
    a >> 32 == 0xffff
}

/// How many bits stand above those that the lengths of the address count.
pub fn bits_above(a: u128) -> u8
    ensures { result ≡ masks.bits_above a }
{
    if is_mapped(a) { BITS_ABOVE } else { 0 }
}

/// The address with only its first bits kept, so many from the 128-bit top.
pub fn mask(a: u128, len: u8) -> u128
    requires { len ≤ 128 }
    ensures { result ≡ masked a len }
{
    if len == 0 {
        return 0;
    }
    let cleared = BITS - len;
    a >> cleared << cleared
}

/// The net of the first bits of an address: so many of the last 32 of an address in `::ffff:0:0/96`, and of all 128 of
/// another. `None` exactly where they are more.
pub fn make_net(a: u128, len: u8) -> Option<Net>
    ensures { SomeIff result (len ≤ most_bits a) (net_of a len) }
{
    let above = bits_above(a);
    if len > BITS - above {
        return None;
    }
    let len = above + len;
    Some(Net {
        addr: mask(a, len),
        len,
    })
}

/// Whether the address has the net's first bits.
pub fn contains(net: Net, a: u128) -> bool
    requires { net.len ≤ 128 }
    ensures { IsTrue result ↔ (masked a net.len ≡ masked net.addr net.len) }
{
    mask(a, net.len) == mask(net.addr, net.len)
}
