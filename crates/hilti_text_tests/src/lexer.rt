//! Expected values come from Python: its integers, ipaddress, and a table of the bytes by their ASCII characters.
use hilti_base::{Place, Refusal};
use hilti_lexer::{LexicalFault, TokenKind, Tokens, lex};
use std::alloc::{AllocError, Global};
use std::test::Fail;

// What each byte is as a text of its own: nothing, a line end, a word, a number, a mark, or the code of its refusal.
const BYTES: &[u8] = b"111111111-E11-111111111111111111-14-1111MMM1M1M1NNNNNNNNNNM1MMM1\
    MWWWWWWWWWWWWWWWWWWWWWWWWWW7111W1WWWWWWWWWWWWWWWWWWWWWWWWWWM1M11\
    1111111111111111111111111111111111111111111111111111111111111111\
    1111111111111111111111111111111111111111111111111111111111111111";

// One line for each token: its place and what it is.
fn shown(alloc: Global, tokens: &Tokens) -> Result<String, AllocError> {
    let mut all = String::new(alloc);
    for token in tokens.as_slice() {
        let kind = shown_kind(alloc, &token.kind)?;
        let line = token.place.line;
        let column = token.place.column;
        let shown = format!(in alloc; "{line}:{column} {kind}; ")?;
        all.push_str(&shown)?;
    }
    Ok(all)
}

fn shown_kind(alloc: Global, kind: &TokenKind) -> Result<String, AllocError> {
    match kind {
        TokenKind::Word(word) => {
            let word = word.bytes();
            format!(in alloc; "word {word:?}")
        }
        TokenKind::Number(number) => format!(in alloc; "number {number}"),
        TokenKind::Decimal(seconds, nanos) => format!(in alloc; "decimal {seconds} {nanos}"),
        TokenKind::Address(address) => format!(in alloc; "address {address}"),
        TokenKind::Net(address, len) => format!(in alloc; "net {address} {len}"),
        TokenKind::Port(number, udp) => format!(in alloc; "port {number} {udp}"),
        TokenKind::Text(text) => {
            let text = text.bytes();
            format!(in alloc; "text {text:?}")
        }
        TokenKind::Bytes(bytes) => {
            let bytes = bytes.bytes();
            format!(in alloc; "bytes {bytes:?}")
        }
        TokenKind::Mark(mark) => format!(in alloc; "mark {mark}"),
        TokenKind::LineEnd => format!(in alloc; "end"),
    }
}

#[test]
fn reads_tokens(rt: HostRuntime) -> Result<(), Fail> {
    let alloc = rt.alloc();
    let read = [
        ("", ""),
        (
            "ab_1\t{\r\n } # x\n\"y\"",
            "1:1 word [97, 98, 95, 49]; 1:6 mark 123; 1:8 end; 2:2 mark 125; 2:7 end; 3:1 text [121]; ",
        ),
        ("a# no line end", "1:1 word [97]; "),
        (
            ":: : ::: ",
            "1:1 mark 0; 1:4 mark 58; 1:6 mark 0; 1:8 mark 58; ",
        ),
        (
            "b\"x\" b \"x\"bb\"x\"",
            "1:1 bytes [120]; 1:6 word [98]; 1:8 text [120]; 1:11 word [98, 98]; 1:13 text [120]; ",
        ),
        (
            "\"\\n\\t\\\\\\\"\\xfF\t \u{e9}\"",
            "1:1 text [10, 9, 92, 34, 255, 9, 32, 195, 169]; ",
        ),
        (
            "@a.b = c",
            "1:1 mark 64; 1:2 word [97]; 1:3 mark 46; 1:4 word [98]; 1:6 mark 61; 1:8 word [99]; ",
        ),
        ("0", "1:1 number 0; "),
        ("18446744073709551615", "1:1 number 18446744073709551615; "),
        ("0x1F", "1:1 number 31; "),
        ("0xffffffffffffffff", "1:1 number 18446744073709551615; "),
        ("0x0000000000000001", "1:1 number 1; "),
        ("1.5", "1:1 decimal 1 500000000; "),
        ("0.000000001", "1:1 decimal 0 1; "),
        ("10.11.12.13", "1:1 address 281470850239501; "),
        ("10.0.0.1/8", "1:1 net 281470849515520 104; "),
        ("80/tcp", "1:1 port 80 false; "),
        ("65535/udp", "1:1 port 65535 true; "),
    ];
    for (text, tokens) in read {
        let found = lex(alloc, 3, text.as_bytes())?;
        assert_eq!(rt; shown(alloc, &found)?.as_str(), tokens, "{text}");
    }
    Ok(())
}

#[test]
fn reads_brackets(rt: HostRuntime) -> Result<(), Fail> {
    let alloc = rt.alloc();
    let read = [
        ("[::]", "1:1 address 0; "),
        ("[::1], x", "1:1 address 1; 1:6 mark 44; 1:8 word [120]; "),
        ("[::ffff:a00:1]", "1:1 address 281470849515521; "),
        (
            "[2001:DB8:0:0:1:0:0:1]",
            "1:1 address 42540766411282592856904266426630537217; ",
        ),
        (
            "[2001:db8:ffff::]/32",
            "1:1 net 42540766411282592856903984951653826560 32; ",
        ),
        ("[::]/12x", "1:1 net 0 12; 1:8 word [120]; "),
        ("[::ffff:a00:0]/104", "1:1 net 281470849515520 104; "),
    ];
    for (text, tokens) in read {
        let found = lex(alloc, 3, text.as_bytes())?;
        assert_eq!(rt; shown(alloc, &found)?.as_str(), tokens, "{text}");
    }
    Ok(())
}

fn refusal(file: u32, code: u32, line: u32, column: u32) -> Refusal {
    let place = Place { file, line, column };
    Refusal::At { place, code }
}

#[test]
fn refuses(rt: HostRuntime) -> Result<(), Fail> {
    let alloc = rt.alloc();
    let refused = [
        ("a\n b ?", 1, 2, 4),
        ("\"a\rb\"", 1, 1, 3),
        ("b\"a\u{7f}\"", 1, 1, 4),
        ("007", 2, 1, 1),
        ("0x", 2, 1, 1),
        ("0x00000000000000001", 2, 1, 1),
        ("1.0000000001", 2, 1, 1),
        ("1.", 2, 1, 1),
        ("10.0.0.256", 2, 1, 1),
        ("10.0.0.1/33", 2, 1, 1),
        ("70000/tcp", 2, 1, 1),
        ("18446744073709551616.5", 2, 1, 1),
        ("x 18446744073709551616", 3, 1, 3),
        (" \"a", 4, 1, 2),
        ("\"a\nb\"", 4, 1, 1),
        ("b\"\\\"", 4, 1, 2),
        ("\"a\\q\"", 5, 1, 3),
        ("b\"\\x0g\"", 5, 1, 3),
        ("\"\\\n\"", 5, 1, 2),
    ];
    for (text, code, line, column) in refused {
        let found = lex(alloc, 7, text.as_bytes()).err();
        assert_eq!(rt; found, Some(refusal(7, code, line, column)), "{text}");
    }
    Ok(())
}

#[test]
fn refuses_brackets_around_no_address(rt: HostRuntime) -> Result<(), Fail> {
    let alloc = rt.alloc();
    let refused = [
        (" [2001:db8::]/129", 7, 1, 2),
        ("[1::2::3]", 7, 1, 1),
        ("[]", 7, 1, 1),
        ("[::]/", 7, 1, 1),
        ("[::]/01", 7, 1, 1),
        ("[:: ]", 7, 1, 1),
        ("x [1:2:3:4:5:6:7:8::]", 7, 1, 3),
        ("]", 1, 1, 1),
    ];
    for (text, code, line, column) in refused {
        let found = lex(alloc, 7, text.as_bytes()).err();
        assert_eq!(rt; found, Some(refusal(7, code, line, column)), "{text}");
    }
    Ok(())
}

#[test]
fn limits_words(rt: HostRuntime) -> Result<(), Fail> {
    let alloc = rt.alloc();
    let longer = vec![in alloc; b'a'; 256]?;
    assert_eq!(rt; lex(alloc, 0, &longer[1..])?.len(), 1);
    let long_word = refusal(0, LexicalFault::LongWord.code(), 1, 1);
    assert_eq!(rt; lex(alloc, 0, &longer).err(), Some(long_word));
    Ok(())
}

#[test]
fn reads_single_bytes(rt: HostRuntime) -> Result<(), Fail> {
    let alloc = rt.alloc();
    for (byte, expected) in BYTES.iter().enumerate() {
        let found = match lex(alloc, 0, &[byte as u8]) {
            Ok(tokens) => match tokens.get(0).map(|token| &token.kind) {
                None => b'-',
                Some(TokenKind::LineEnd) => b'E',
                Some(TokenKind::Word(_)) => b'W',
                Some(TokenKind::Number(_)) => b'N',
                Some(TokenKind::Mark(_)) => b'M',
                Some(_) => b'?',
            },
            Err(Refusal::At { code: 1, .. }) => b'1',
            Err(Refusal::At { code: 4, .. }) => b'4',
            Err(Refusal::At { code: 7, .. }) => b'7',
            Err(_) => b'?',
        };
        assert_eq!(rt; found, *expected, "{byte}");
    }
    Ok(())
}
