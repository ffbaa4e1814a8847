//! A capture as a sender of calls: one call for each packet, and one at the end, while the file is read in pieces.
#![tactic(auto)]

mod feed;
mod front;
mod pieces;
mod progress;
mod tail;
mod whole;

pub use feed::{CaptureFeed, FeedFault, OpenedCapture, Origin, open_capture};
pub use tail::Outcome;
pub use whole::{CaptureCalls, CaptureEnd, capture_calls};
