//! What values are, by their types.
ghost use Rattle.std.specs.Prelude.{◌≡◌};
ghost use Rattle.hilti_network_ops.specs.Computing.{IsAddr, IsInt, IsNet, IsPort, IsPortNumber};
ghost use Rattle.hilti_network_ops.specs.Computing.{address_of, net_of, port_of, whole_of};

use hilti_addr::{Net, Port};
use hilti_values::Value;

/// The whole number that it is.
#[inline]
pub fn whole(value: &Value) -> u64
    requires { IsInt value.now }
    ensures { result ≡ whole_of value.now }
{
    match value {
        Value::Int(n) => *n,
        _ => unreachable!(),
    }
}

/// The port's number that it is.
#[inline]
pub fn port_number(value: &Value) -> u16
    requires { IsPortNumber value.now }
    ensures { result ≡ whole_of value.now }
{
    match value {
        Value::Int(n) => *n as u16,
        _ => unreachable!(),
    }
}

/// The address that it is.
#[inline]
pub fn address(value: &Value) -> u128
    requires { IsAddr value.now }
    ensures { result ≡ address_of value.now }
{
    match value {
        Value::Addr(address) => *address,
        _ => unreachable!(),
    }
}

/// The net that it is.
#[inline]
pub fn net(value: &Value) -> Net
    requires { IsNet value.now }
    ensures { result ≡ net_of value.now }
{
    match value {
        Value::Net { length, address } => Net {
            addr: *address,
            len: *length,
        },
        _ => unreachable!(),
    }
}

/// The port that it is.
#[inline]
pub fn port(value: &Value) -> Port
    requires { IsPort value.now }
    ensures { result ≡ port_of value.now }
{
    match value {
        Value::Port(number, is_udp) => Port {
            number: *number,
            udp: *is_udp,
        },
        _ => unreachable!(),
    }
}
