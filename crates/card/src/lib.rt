// The host interface: every call over the tables that a host lends. Each function is thin: it follows links, reads or writes one record, or passes the
// tables on; what is decided is decided by value below. So no table is ever copied, and a call writes only the records that change.
#![tactic(auto)]

mod acting;
mod asking;
mod auditing;
mod body;
mod calls;
mod places;
mod starting;
mod walking;

pub use body::call;
pub use calls::{
    acknowledge, audit, close_pair, emit_packets, fresh_start, open_pair, post_message,
    read_response, timer_step,
};
pub use places::{no_pair, no_slot, pair_at, slot_at};
use refusal::Refusal;
use rules::{Ends, Reply};
use walks::{Emitting, Joining, Leaving};

// As much of the two lent buffers as a call may use.
#[derive(Clone, Copy, Debug, PartialEq, Eq)]
pub struct Limits {
    pub numbers: usize,
    pub bytes: usize,
}

// What a fresh start does: so many pairs and slots are written, or none, and the ends and the answer.
#[derive(Clone, Copy, Debug, PartialEq, Eq)]
pub struct Started {
    pub pairs: u32,
    pub slots: u32,
    pub ends: Ends,
    pub reply: Result<Reply, Refusal>,
}

// What the three walks of a call come to.
#[derive(Clone, Copy, Debug, PartialEq, Eq)]
pub struct Walked {
    pub leaving: Leaving,
    pub joining: Joining,
    pub emitting: Emitting,
}
