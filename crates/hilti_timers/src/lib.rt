//! Entries that wait for their times, each under a serial of its own. The next that is due is the one of the least due
//! time, and of these the one of the least serial.
#![tactic(auto)]

mod manager;

pub use manager::Manager;
