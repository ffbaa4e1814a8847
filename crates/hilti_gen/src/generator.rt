ghost use Rattle.std.specs.Prelude.{◌≡◌, ◌/◌, ◌%◌, ◌^◌, ◌<◌, ◌≤◌, IfOk};
ghost use Rattle.hilti_gen.specs.Generator.{capture_of, step};

use crate::frame::{push_frame, push_header, push_record_header};
use hilti_base::{Blob, NoMemory};
use std::alloc::Global;

const MULTIPLIER: u64 = 6_364_136_223_846_793_005;

const INCREMENT: u64 = 1_442_695_040_888_963_407;

/// A capture of Ethernet frames that a seed makes: 1 to 1,000,000 packets, a millisecond apart, each of one of 1 to
/// 60,000 flows. It has 24 bytes, and 66 for each packet.
pub fn capture(alloc: Global, seed: u64, packets: u64, flows: u64) -> Result<Blob, NoMemory>
    requires some_packets { 1 ≤ packets }
    requires most_packets { packets ≤ 1000000 }
    requires some_flows { 1 ≤ flows }
    requires most_flows { flows ≤ 60000 }
    ensures { IfOk result (λ blob. blob ≡ capture_of seed packets flows) }
{
    let mut blob = Blob::new(alloc);
    push_header(&mut blob)?;
    let mut x = seed;
    for number in 0..packets {
        x = next_state(x);
        push_record_header(&mut blob, number)?;
        push_frame(&mut blob, flow_of(x, flows), number)?;
    }
    Ok(blob)
}

/// The state behind another.
fn next_state(x: u64) -> u64
    ensures { result ≡ step x }
{
    x.wrapping_mul(MULTIPLIER).wrapping_add(INCREMENT)
}

/// The flow that a state names, one of 1 to 60,000.
fn flow_of(x: u64, flows: u64) -> u16
    requires some { 1 ≤ flows }
    requires most { flows ≤ 60000 }
    ensures value { result ≡ x / 2 ^ 33 % flows }
    ensures below { result < 60000 }
{
    ((x >> 33) % flows) as u16
}
