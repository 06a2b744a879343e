// What an acknowledgement, a read response or a timer step makes of a pair, by value. The packets that the rules ask for are given: a scan has found them.
#![tactic(auto)]

mod answering;
mod releasing;
mod timing;

pub use answering::{acknowledged, at_last, bound_of, responded_to};
pub use releasing::further;
use rules::Packet;
pub use timing::timed;

// The first packet of a kind in a queue: how many are left from it on, its slot, and what it says.
#[derive(Clone, Copy, Debug, PartialEq, Eq)]
pub struct Found {
    pub left: u32,
    pub slot: u32,
    pub packet: Packet,
}
