ghost use Rattle.std.specs.Prelude.{◌≡◌, IsTrue, map};
ghost use Rattle.std.specs.Cmp.Lexicographic.{slice_cmp};
ghost use Rattle.hilti_keys.specs.Keys.{AreKeys, alike, all_pass};
ghost use Rattle.hilti_keys.specs.Orders.{order_of, in_turn};

use hilti_tree::{Forest, Tree};
use std::cmp::Ordering;

/// How a key stands to another of its type. False is below True; numbers, times, intervals and addresses go by number,
/// constants of an enum by place, strings and bytes by their bytes in turn with a prefix first, nets by address and then
/// by length, ports by number and then TCP before UDP, and tuples by their parts in turn.
#[cycle(order)]
pub fn order(a: &Tree, b: &Tree) -> Ordering
    requires { AreKeys a.now b.now }
    ensures { result ≡ order_of a.now b.now }
{
    match (a, b) {
        (Tree::Bool(first), Tree::Bool(second)) => first.cmp(second),
        (Tree::Int(first), Tree::Int(second)) => first.cmp(second),
        (Tree::Text(first), Tree::Text(second)) => first.bytes().cmp(second.bytes()),
        (Tree::Bytes(first), Tree::Bytes(second)) => first.bytes().cmp(second.bytes()),
        (Tree::Addr(first), Tree::Addr(second)) => first.cmp(second),
        (Tree::Net(first, bits), Tree::Net(second, others)) => {
            first.cmp(second).then(bits.cmp(others))
        }
        (Tree::Port(first, is_udp), Tree::Port(second, other)) => {
            first.cmp(second).then(is_udp.cmp(other))
        }
        (Tree::Time(first), Tree::Time(second)) => first.cmp(second),
        (Tree::Span(first), Tree::Span(second)) => first.cmp(second),
        (Tree::Pick(first), Tree::Pick(second)) => first.cmp(second),
        (Tree::Tuple(parts), Tree::Tuple(others)) => order_parts(parts, others),
        _ => unreachable!(),
    }
}

/// How the parts of a tuple stand to those of another of its type: as the first two do that differ.
#[cycle(order)]
fn order_parts(parts: &Forest, others: &Forest) -> Ordering
    requires { IsTrue (all_pass (map alike parts.now) others.now) }
    ensures { result ≡ in_turn (map order_of parts.now) others.now }
{
    let left = parts.as_slice();
    let right = others.as_slice();
    for at in 0..left.len() {
        let part_order = order(&left[at], &right[at]);
        if part_order.is_ne() {
            return part_order;
        }
    }
    Ordering::Equal
}
