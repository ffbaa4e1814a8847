//! Expected results of signed rows come from a C program over int8_t to int64_t, the others from Python.
use hilti_base::Raise;
use hilti_int::{IntCmp, IntOp, Width, apply, compare, fit, fit_exact};
use std::test::Fail;

type Row = (IntOp, Width, u64, u64, u64);

const ROWS: [Row; 32] = [
    (IntOp::Add, Width::W8, 255, 1, 0),
    (IntOp::Sub, Width::W16, 65529, 65534, 65531),
    (IntOp::Sub, Width::W64, 0, 1, 18446744073709551615),
    (IntOp::Mul, Width::W32, 4294967196, 7, 4294966596),
    (IntOp::Div, Width::W8, 249, 2, 124),
    (IntOp::Mod, Width::W8, 249, 2, 1),
    (IntOp::Sdiv, Width::W8, 249, 2, 253),
    (IntOp::Smod, Width::W8, 249, 2, 255),
    (IntOp::Sdiv, Width::W8, 7, 254, 253),
    (IntOp::Smod, Width::W8, 7, 254, 1),
    (IntOp::Sdiv, Width::W16, 65529, 65534, 3),
    (IntOp::Smod, Width::W16, 65529, 65534, 65535),
    (
        IntOp::Sdiv,
        Width::W64,
        9223372036854775808,
        18446744073709551615,
        9223372036854775808,
    ),
    (
        IntOp::Smod,
        Width::W64,
        9223372036854775808,
        18446744073709551615,
        0,
    ),
    (IntOp::And, Width::W8, 0b1100, 0b1010, 0b1000),
    (IntOp::Or, Width::W8, 0b1100, 0b1010, 0b1110),
    (IntOp::Xor, Width::W8, 0b1100, 0b1010, 0b0110),
    (IntOp::Shl, Width::W8, 0x81, 1, 2),
    (IntOp::Shl, Width::W8, 0x81, 8, 0),
    (IntOp::Shr, Width::W16, 0x4000, 3, 2048),
    (IntOp::Shr, Width::W64, 9223372036854775808, 64, 0),
    (IntOp::Sshr, Width::W8, 0x81, 1, 192),
    (IntOp::Sshr, Width::W8, 0x81, 8, 255),
    (
        IntOp::Sshr,
        Width::W64,
        9223372036854775808,
        63,
        18446744073709551615,
    ),
    (IntOp::AddExact, Width::W8, 254, 1, 255),
    (IntOp::SubExact, Width::W8, 3, 3, 0),
    (
        IntOp::MulExact,
        Width::W64,
        4294967295,
        4294967297,
        18446744073709551615,
    ),
    (IntOp::ShlExact, Width::W8, 64, 1, 128),
    (IntOp::ShlExact, Width::W64, 1, 63, 9223372036854775808),
    (IntOp::ShlExact, Width::W8, 0, 200, 0),
    (IntOp::SdivExact, Width::W16, 65529, 65534, 3),
    (IntOp::SdivExact, Width::W8, 249, 2, 253),
];

const RAISING: [(IntOp, Width, u64, u64); 7] = [
    (IntOp::AddExact, Width::W8, 255, 1),
    (IntOp::SubExact, Width::W16, 65529, 65534),
    (IntOp::MulExact, Width::W64, 4294967296, 4294967296),
    (IntOp::ShlExact, Width::W8, 128, 1),
    (IntOp::ShlExact, Width::W64, 1, 64),
    (IntOp::SdivExact, Width::W8, 128, 255),
    (
        IntOp::SdivExact,
        Width::W64,
        9223372036854775808,
        18446744073709551615,
    ),
];

#[test]
fn applies(rt: HostRuntime) -> Result<(), Fail> {
    for (op, width, a, b, expected) in ROWS {
        let answer = apply(op, width, fit(width, a), fit(width, b));
        assert_eq!(rt; answer, Ok(expected), "{op:?} {a} {b}");
    }
    for op in [
        IntOp::Div,
        IntOp::Mod,
        IntOp::Sdiv,
        IntOp::Smod,
        IntOp::SdivExact,
    ] {
        let answer = apply(op, Width::W8, 1, 0);
        assert_eq!(rt; answer, Err(Raise::DivisionByZero), "{op:?}");
    }
    Ok(())
}

#[test]
fn exact_results_fit(rt: HostRuntime) -> Result<(), Fail> {
    for (op, width, a, b) in RAISING {
        let answer = apply(op, width, fit(width, a), fit(width, b));
        assert_eq!(rt; answer, Err(Raise::ValueError), "{op:?} {a} {b}");
    }
    assert_eq!(rt; fit_exact(Width::W8, 255), Ok(255));
    assert_eq!(rt; fit_exact(Width::W8, 256), Err(Raise::ValueError));
    Ok(())
}

#[test]
fn compares(rt: HostRuntime) {
    let rows = [
        (IntCmp::Lt, Width::W8, 128, 255, true),
        (IntCmp::Lt, Width::W8, 7, 7, false),
        (IntCmp::Gt, Width::W8, 255, 128, true),
        (IntCmp::Leq, Width::W8, 7, 7, true),
        (IntCmp::Geq, Width::W8, 7, 7, true),
        (IntCmp::Slt, Width::W32, 4294967196, 7, true),
        (IntCmp::Slt, Width::W8, 7, 254, false),
        (IntCmp::Sgt, Width::W8, 7, 254, true),
    ];
    for (op, width, a, b, held) in rows {
        let answer = compare(op, width, fit(width, a), fit(width, b));
        assert_eq!(rt; answer, held, "{op:?} {a} {b}");
    }
}
