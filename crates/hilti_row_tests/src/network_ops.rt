//! Expected addresses come from Python's ipaddress.
use hilti_addr::v4;
use hilti_base::Raise;
use hilti_network_ops::{NetworkBinary, NetworkUnary, compute_binary, compute_unary};
use hilti_values::Value;
use std::test::Fail;

#[test]
fn masks(rt: HostRuntime) -> Result<(), Fail> {
    let (a, bits) = (Value::Addr(v4(0x0a0b_0c0d)), Value::Int(12));
    let masked = compute_binary(NetworkBinary::AddrMask, &a, &bits)?;
    assert!(rt; matches!(masked, Value::Addr(281470849515520)));
    let net = compute_binary(NetworkBinary::NetMake, &a, &bits)?;
    let Value::Net { length, address } = &net else {
        return Err("no net".into());
    };
    assert_eq!(rt; (*length, *address), (108, 281470849515520));
    let length = compute_unary(NetworkUnary::NetLength, &net);
    assert!(rt; matches!(length, Value::Int(12)));
    let first = compute_unary(NetworkUnary::NetAddr, &net);
    assert!(rt; matches!(first, Value::Addr(281470849515520)));
    let inside = compute_binary(NetworkBinary::NetContains, &net, &a)?;
    assert!(rt; matches!(inside, Value::Bool(true)));
    let next = Value::Addr(v4(0x0a10_0000));
    let outside = compute_binary(NetworkBinary::NetContains, &net, &next)?;
    assert!(rt; matches!(outside, Value::Bool(false)));
    let more = Value::Int(33);
    let refused = compute_binary(NetworkBinary::AddrMask, &a, &more);
    assert!(rt; matches!(refused, Err(Raise::ValueError)));
    let refused = compute_binary(NetworkBinary::NetMake, &a, &more);
    assert!(rt; matches!(refused, Err(Raise::ValueError)));
    Ok(())
}

#[test]
fn masks_wide_addresses(rt: HostRuntime) -> Result<(), Fail> {
    let address = 0x2001_0db8_ffff_0000_0000_0000_0000_0001;
    let (a, bits) = (Value::Addr(address), Value::Int(34));
    let masked = compute_binary(NetworkBinary::AddrMask, &a, &bits)?;
    assert!(rt; matches!(masked, Value::Addr(0x2001_0db8_c000_0000_0000_0000_0000_0000)));
    let net = compute_binary(NetworkBinary::NetMake, &a, &bits)?;
    let length = compute_unary(NetworkUnary::NetLength, &net);
    assert!(rt; matches!(length, Value::Int(34)));
    let inside = compute_binary(NetworkBinary::NetContains, &net, &a)?;
    assert!(rt; matches!(inside, Value::Bool(true)));
    let whole = compute_binary(NetworkBinary::AddrMask, &a, &Value::Int(128))?;
    assert!(rt; matches!(whole, Value::Addr(all) if all == address));
    let refused = compute_binary(NetworkBinary::NetMake, &a, &Value::Int(129));
    assert!(rt; matches!(refused, Err(Raise::ValueError)));
    Ok(())
}

#[test]
fn makes_ports(rt: HostRuntime) {
    let number = Value::Int(80);
    let tcp = compute_unary(NetworkUnary::PortTcp, &number);
    assert!(rt; matches!(tcp, Value::Port(80, false)));
    let udp = compute_unary(NetworkUnary::PortUdp, &number);
    assert!(rt; matches!(udp, Value::Port(80, true)));
    let same = compute_unary(NetworkUnary::PortNumber, &tcp);
    assert!(rt; matches!(same, Value::Int(80)));
    let is_tcp = compute_unary(NetworkUnary::PortIsTcp, &udp);
    assert!(rt; matches!(is_tcp, Value::Bool(false)));
}
