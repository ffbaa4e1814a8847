ghost use Rattle.std.specs.Prelude.{◌≡◌, ◌++◌, ◌<◌, ◌≤◌, OnOk};
ghost use Rattle.hilti_gen.specs.Generator.{frame, header, record_header};

use hilti_base::{Blob, NoMemory};

/// The magic number of microseconds in little-endian order, version 2.4, no time zone, no accuracy, at most 262,144
/// bytes of a packet, and Ethernet.
const HEADER: &[u8] = &[
    0xd4, 0xc3, 0xb2, 0xa1, 2, 0, 4, 0, 0, 0, 0, 0, 0, 0, 0, 0, 0, 0, 4, 0, 1, 0, 0, 0,
];

/// Two Ethernet addresses, and that IPv4 is behind them.
const LINK: &[u8] = &[2, 0, 0, 0, 0, 1, 2, 0, 0, 0, 0, 2, 8, 0];

/// The beginning of an IPv4 packet of 36 bytes, up to its addresses.
const IPV4: &[u8] = &[0x45, 0, 0, 0x24, 0, 0, 0, 0, 0x40, 0x11, 0, 0];

/// 10.1.0.1.
const DESTINATION: &[u8] = &[10, 1, 0, 1];

/// UDP behind its source port: to port 53, 16 bytes, without a checksum.
const UDP: &[u8] = &[0, 0x35, 0, 0x10, 0, 0];

/// How many bytes a frame has.
const FRAME_LENGTH: u32 = 50;

/// When the first packet comes, in seconds.
const START: u32 = 1_400_000_000;

/// Adds the 24 bytes that a capture begins with.
#[tactic(auto, unfolding(crate::specs::Generator::header))]
pub fn push_header(blob: &mut Blob) -> Result<(), NoMemory>
    ensures { OnOk result (blob.new ≡ blob.old ++ header) }
{
    blob.append(HEADER)
}

/// Adds the 16 bytes before the frame of a packet: its time, and its length twice. The number is at most 1,000,000.
#[tactic(auto, unfolding(crate::specs::Generator::record_header))]
pub fn push_record_header(blob: &mut Blob, number: u64) -> Result<(), NoMemory>
    requires { number ≤ 1000000 }
    ensures { OnOk result (blob.new ≡ blob.old ++ record_header number) }
{
    let seconds = START + (number / 1000) as u32;
    let microseconds = (number % 1000 * 1000) as u32;
    blob.append(&seconds.to_le_bytes())?;
    blob.append(&microseconds.to_le_bytes())?;
    blob.append(&FRAME_LENGTH.to_le_bytes())?;
    blob.append(&FRAME_LENGTH.to_le_bytes())
}

/// Adds the 50 bytes of a packet of a flow below 60,000.
#[tactic(auto, unfolding(crate::specs::Generator::frame))]
pub fn push_frame(blob: &mut Blob, flow: u16, number: u64) -> Result<(), NoMemory>
    requires { flow < 60000 }
    ensures { OnOk result (blob.new ≡ blob.old ++ frame flow number) }
{
    blob.append(LINK)?;
    blob.append(IPV4)?;
    blob.append(&[10, 0, (flow / 256) as u8, (flow % 256) as u8])?;
    blob.append(DESTINATION)?;
    blob.append(&(1024 + flow).to_be_bytes())?;
    blob.append(UDP)?;
    blob.append(&number.to_be_bytes())
}
