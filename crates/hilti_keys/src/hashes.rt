ghost use Rattle.std.specs.Prelude.{◌≡◌, ◌++◌, IsTrue, length, map};
ghost use Rattle.std.specs.Int.{w64, to_be_bytes};
ghost use Rattle.std.specs.List.{concat};
ghost use Rattle.hilti_keys.specs.Keys.{IsKey, alike, all_pass};
ghost use Rattle.hilti_keys.specs.Hashes.{hash_from, hash_of, hash_step, key_bytes};

use hilti_tree::{Forest, Tree};

const FACTOR: u64 = 1_000_003;

/// The hash of a key: of its bytes.
pub fn hash(tree: &Tree) -> u64
    requires { IsKey tree.now }
    ensures { result ≡ hash_of (key_bytes tree.now) }
{
    taking_key(0, tree)
}

/// The hash of bytes: from 0, each byte makes it 1,000,003 times what it was, with the byte and 1 added, modulo 2^64.
pub fn hash_bytes(bytes: &[u8]) -> u64
    ensures { result ≡ hash_of bytes.now }
{
    taking_bytes(0, bytes)
}

/// A hash with the bytes of a key taken in.
#[cycle(taking_key)]
fn taking_key(hash: u64, tree: &Tree) -> u64
    requires { IsKey tree.now }
    ensures { result ≡ hash_from hash (key_bytes tree.now) }
{
    match tree {
        Tree::Bool(value) => taking_byte(hash, u8::from(*value)),
        Tree::Int(n) | Tree::Time(n) | Tree::Span(n) => taking_bytes(hash, &n.to_be_bytes()),
        Tree::Text(bytes) | Tree::Bytes(bytes) => taking_text(hash, bytes.bytes()),
        Tree::Addr(address) => taking_bytes(hash, &address.to_be_bytes()),
        Tree::Net(address, length) => {
            taking_byte(taking_bytes(hash, &address.to_be_bytes()), *length)
        }
        Tree::Port(number, is_udp) => {
            taking_byte(taking_bytes(hash, &number.to_be_bytes()), u8::from(*is_udp))
        }
        Tree::Pick(n) => taking_bytes(hash, &n.to_be_bytes()),
        Tree::Tuple(parts) => taking_parts(hash, parts),
        _ => unreachable!(),
    }
}

/// A hash with the bytes of the parts of a tuple taken in.
#[cycle(taking_key)]
fn taking_parts(hash: u64, parts: &Forest) -> u64
    requires { IsTrue (all_pass (map alike parts.now) parts.now) }
    ensures { result ≡ hash_from hash (concat (map key_bytes parts.now)) }
{
    let mut taken = hash;
    for part in parts.as_slice() {
        taken = taking_key(taken, part);
    }
    taken
}

/// A hash with a text and its length taken in.
fn taking_text(hash: u64, text: &[u8]) -> u64
    ensures { result ≡ hash_from hash (text.now ++ to_be_bytes w64 (length text.now)) }
{
    let length = text.len() as u64;
    taking_bytes(taking_bytes(hash, text), &length.to_be_bytes())
}

/// A hash with bytes taken in.
fn taking_bytes(hash: u64, bytes: &[u8]) -> u64
    ensures { result ≡ hash_from hash bytes.now }
{
    let mut taken = hash;
    for byte in bytes {
        taken = taking_byte(taken, *byte);
    }
    taken
}

/// A hash with one byte taken in.
fn taking_byte(hash: u64, byte: u8) -> u64
    ensures { result ≡ hash_step hash byte }
{
    hash.wrapping_mul(FACTOR).wrapping_add(u64::from(byte) + 1)
}
