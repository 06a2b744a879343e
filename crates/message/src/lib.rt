// A message's sizes, packets and ranges, by value: document 01's split and its ranges for 3, computed. Every function takes any numbers.
#![tactic(auto)]

mod capping;
mod opcodes;
mod packets;
mod places;
mod ranges;
mod sizes;
mod states;

pub use capping::tidied;
pub use opcodes::opcode_at;
pub use packets::{
    READ_REQUEST, after_x, covers, ends, ends_message, is_read, passed_by, span, stays, unanswered,
};
pub use places::{place_at, sent};
pub use ranges::{
    bad_budget, bad_elapsed, bad_post, bad_psn, bad_response, bad_settings, bad_syndrome,
    is_inside, over_ceiling,
};
pub use sizes::{length_at, mtu, packets_for, psns_for, slots_for, timeout};
pub use states::{State, UnknownState};
pub use wire::{has_immediate, has_reth};

// The card's sizes: the definitions' `small`.
#[derive(Clone, Copy, Debug, PartialEq, Eq)]
pub struct Card;

impl Card {
    pub const PAIRS: u32 = 64;

    pub const SLOTS: u32 = 256;
    // Stands for no slot, in the links that a host lends and in the walks that write them: a number, as the C interface has it.
    pub const NONE: u32 = 256;
    // Of a completion buffer: a ticket and a status for each slot.
    pub const NUMBERS: usize = 512;
}
