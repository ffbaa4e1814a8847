//! A whole module, and the first refusals of texts that are none.
ghost use Rattle.std.specs.Prelude.{◌≤◌, length};

use hilti_base::Refusal;
use hilti_module::Item;
use hilti_syntax::read_module;
use std::alloc::Global;
use std::test::Fail;

const PRINTS: &[u8] =
    b"module Main # prints\r\nvoid packet(time t,\n  bytes d) {\r\n  print  t d\n\n  return.void\n}";

const DEEP: &[u8] =
    b"module Main\nglobal tuple<tuple<tuple<tuple<tuple<tuple<tuple<tuple<tuple<tuple<tuple<tuple<tuple<tuple<tuple<tuple<tuple<tuple<tuple<tuple<tuple<tuple<tuple<tuple<tuple<tuple<tuple<tuple<tuple<tuple<tuple<tuple<tuple<tuple<tuple<tuple<tuple<tuple<tuple<tuple<tuple<tuple<tuple<tuple<tuple<tuple<tuple<tuple<tuple<tuple<tuple<tuple<tuple<tuple<tuple<tuple<tuple<tuple<tuple<tuple<tuple<tuple<tuple<tuple<tuple<";

/// The code, the line and the column of the refusal of a text.
fn refused(alloc: Global, text: &[u8]) -> Option<(u32, u32, u32)>
    requires { length text.now ≤ 1048576 }
{
    match read_module(alloc, 0, text) {
        Err(Refusal::At { place, code }) => Some((code, place.line, place.column)),
        _ => None,
    }
}

#[test]
fn reads_a_module(rt: HostRuntime) -> Result<(), Fail> {
    let Ok(module) = read_module(rt.alloc(), 0, PRINTS) else {
        panic!(rt; "it is refused");
    };
    assert_eq!(rt; module.name.bytes.bytes(), b"Main".as_slice());
    assert!(rt; module.items.len() == 1);
    let Some(
        Item::Function {
            name,
            parameters,
            body,
            ..
        },
    ) = module.items.get(0)
    else {
        panic!(rt; "it is no function");
    };
    assert_eq!(rt; name.bytes.bytes(), b"packet".as_slice());
    assert!(rt; parameters.len() == 2);
    assert!(rt; body.lines.len() == 2);
    assert_eq!(rt; (body.close.line, body.close.column), (7, 1));
    Ok(())
}

#[test]
fn reads_a_version(rt: HostRuntime) -> Result<(), Fail> {
    let Ok(module) = read_module(rt.alloc(), 0, b"module version version 0x2") else {
        panic!(rt; "it is refused");
    };
    assert_eq!(rt; module.name.bytes.bytes(), b"version".as_slice());
    let Some(number) = &module.version else {
        panic!(rt; "it has no version");
    };
    assert!(rt; number.value == 2);
    assert_eq!(rt; (number.place.line, number.place.column), (1, 24));
    Ok(())
}

#[test]
fn refuses_the_first_fault(rt: HostRuntime) {
    let alloc = rt.alloc();
    assert_eq!(rt; refused(alloc, b""), Some((10, 1, 1)));
    assert_eq!(rt; refused(alloc, b"module Main\n$"), Some((1, 2, 1)));
    assert_eq!(rt; refused(alloc, b"module Main version\n"), Some((10, 1, 20)));
    assert_eq!(rt;
        refused(alloc, b"module Main\nvoid list() {\n"),
        Some((10, 2, 6))
    );
    assert_eq!(rt;
        refused(alloc, b"module Main\nvoid f() {\n  nop\n"),
        Some((10, 4, 1))
    );
    assert_eq!(rt; refused(alloc, DEEP), Some((11, 2, 397)));
}
