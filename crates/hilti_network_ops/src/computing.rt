ghost use Rattle.std.specs.Prelude.{◌≡◌};
ghost use Rattle.hilti_addr.specs.Masks.{net_of as first_net};
ghost use Rattle.hilti_network_ops.specs.Computing.{TakesOne, TakesTwo, unary_of, binary_of};
ghost use Rattle.hilti_network_ops.specs.Computing.{has_first_bits, net_length, within_bits};
ghost use Rattle.hilti_network_ops.specs.Computing as computing;

use crate::operands::{address, net, port, port_number, whole};
use crate::operations::{NetworkBinary, NetworkUnary};
use hilti_addr::{Net, bits_above, contains, make_net};
use hilti_base::Raise;
use hilti_values::Value;

/// The most bits of a net.
const MOST: u8 = 128;

/// What is computed of a value.
#[inline]
pub fn compute_unary(op: NetworkUnary, a: &Value) -> Value
    requires { TakesOne op a.now }
    ensures { result ≡ unary_of op a.now }
{
    match op {
        NetworkUnary::NetAddr => Value::Addr(net(a).addr),
        NetworkUnary::NetLength => Value::Int(u64::from(length(net(a)))),
        NetworkUnary::PortTcp => Value::Port(port_number(a), false),
        NetworkUnary::PortUdp => Value::Port(port_number(a), true),
        NetworkUnary::PortNumber => Value::Int(u64::from(port(a).number)),
        NetworkUnary::PortIsTcp => Value::Bool(!port(a).udp),
    }
}

/// What is computed of two values, or the raise in its place.
#[inline]
pub fn compute_binary(op: NetworkBinary, a: &Value, b: &Value) -> Result<Value, Raise>
    requires { TakesTwo op a.now b.now }
    ensures { result ≡ binary_of op a.now b.now }
{
    Ok(match op {
        NetworkBinary::AddrMask => Value::Addr(first_bits(address(a), whole(b))?.addr),
        NetworkBinary::NetMake => net_value(first_bits(address(a), whole(b))?),
        NetworkBinary::NetContains => Value::Bool(is_in(net(a), address(b))),
    })
}

/// The net of the first bits of an address: so many of the last 32 of an address in `::ffff:0:0/96`, and of all 128 of
/// another; `ValueError` exactly where they are more.
fn first_bits(address: u128, count: u64) -> Result<Net, Raise>
    ensures { result ≡ within_bits address count (first_net address count) }
{
    if count > u64::from(MOST) {
        return Err(Raise::ValueError);
    }
    make_net(address, count as u8).ok_or(Raise::ValueError)
}

/// The net's length: less 96 where its address is in `::ffff:0:0/96`.
fn length(net: Net) -> u8
    ensures { result ≡ net_length net }
{
    net.len.saturating_sub(bits_above(net.addr))
}

fn net_value(net: Net) -> Value
    ensures { result ≡ computing.net_value net }
{
    Value::Net {
        length: net.len,
        address: net.addr,
    }
}

/// Whether the address has the net's first bits, which are all of them where it has more than 128.
fn is_in(net: Net, address: u128) -> bool
    ensures { result ≡ has_first_bits net address }
{
    let within = Net {
        addr: net.addr,
        len: net.len.min(MOST),
    };
    contains(within, address)
}
