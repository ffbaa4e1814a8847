ghost use Rattle.std.specs.Prelude.{◌≡◌, IfOk};
ghost use Rattle.hilti_gen.specs.Dispatcher.{dispatcher_text};

use hilti_base::{Blob, NoMemory};
use std::alloc::Global;

const DISPATCHER: &[u8] = b"module Main
type H = overlay {
  src: addr at 26 unpack IPv4,
  sport: int<16> at 34 unpack U16Big
}
global int<64> seen
void packet(time t, bytes b) {
  local addr a
  local int<16> p
  local int<64> n
  a = overlay.get H src b 0
  p = overlay.get H sport b 0
  n = int.as p
  thread.schedule n flow (a)
  return.void
}
void flow(addr a) {
  seen = int.add seen 1
  yield
  print seen a
  return.void
}
";

/// A module that schedules each packet on the virtual thread that its source port names, where it is counted, and
/// prints the count so far with the packet's source address.
#[tactic(auto, unfolding(crate::specs::Dispatcher::dispatcher_text))]
pub fn dispatcher(alloc: Global) -> Result<Blob, NoMemory>
    ensures { IfOk result (λ text. text ≡ dispatcher_text) }
{
    Blob::of(alloc, DISPATCHER)
}
