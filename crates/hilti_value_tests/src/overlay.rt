//! Expected numbers come from Python's int.from_bytes, shifts and masks.
use hilti_overlay::{Form, PastEnd, Scalar, Unpack, get};

const PIECE: [u8; 9] = [0x45, 0x12, 0x34, 0x56, 0x78, 0x9a, 0xbc, 0xde, 0xf0];

#[test]
fn unpacks(rt: HostRuntime) {
    let rows = [
        (Form::U8, 0, Ok(Scalar::Int(0x12))),
        (Form::U16Big, 0, Ok(Scalar::Int(0x1234))),
        (Form::U16Little, 0, Ok(Scalar::Int(0x3412))),
        (Form::U32Big, 1, Ok(Scalar::Int(0x3456789a))),
        (Form::U32Little, 0, Ok(Scalar::Int(0x78563412))),
        (Form::U64Big, 0, Ok(Scalar::Int(0x123456789abcdef0))),
        (Form::U64Little, 0, Ok(Scalar::Int(0xf0debc9a78563412))),
        (Form::U64Big, 1, Err(PastEnd)),
        (Form::Ipv4, 0, Ok(Scalar::Addr(0xffff_1234_5678))),
        (Form::PortTcp, 0, Ok(Scalar::Port(0x1234, false))),
        (Form::PortUdp, 0, Ok(Scalar::Port(0x1234, true))),
        (Form::Bytes(6), 2, Ok(Scalar::Range { start: 3, len: 6 })),
        (Form::Bytes(0), 8, Ok(Scalar::Range { start: 9, len: 0 })),
        (Form::Bytes(0), 9, Err(PastEnd)),
        (Form::U8, u64::MAX, Err(PastEnd)),
    ];
    for (form, from, expected) in rows {
        let field = Unpack {
            offset: 1,
            form,
            bits: None,
        };
        assert_eq!(rt; get(&field, &PIECE, from), expected, "{form:?} {from}");
    }
}

#[test]
fn cuts_bits(rt: HostRuntime) {
    let upper = Unpack {
        offset: 0,
        form: Form::U8,
        bits: Some((4, 7)),
    };
    assert_eq!(rt; get(&upper, &PIECE, 0), Ok(Scalar::Int(4)));
    assert_eq!(rt; get(&upper, &[], 0), Err(PastEnd));
    let lower = Unpack {
        offset: 0,
        form: Form::U8,
        bits: Some((0, 3)),
    };
    assert_eq!(rt; get(&lower, &PIECE, 0), Ok(Scalar::Int(5)));
    let whole = Unpack {
        offset: 1,
        form: Form::U64Big,
        bits: Some((0, 63)),
    };
    assert_eq!(rt; get(&whole, &PIECE, 0), Ok(Scalar::Int(0x123456789abcdef0)));
}
