// The calls for a driver in C: the card's, with answers and posts as flat records of numbers. host_c exports them, and include/kamusseori.h declares them.
#![tactic(auto)]

mod calls;
mod flat;

pub use calls::{
    kamusseori_acknowledge, kamusseori_audit, kamusseori_close, kamusseori_emit, kamusseori_fresh,
    kamusseori_open, kamusseori_post, kamusseori_response, kamusseori_timer,
};

// An answer: the refusal's number or 0; the word; messages completed, a post's first PSN or an emission's count; a response's place.
#[repr(C)]
#[derive(Clone, Copy, Debug, Default, PartialEq, Eq)]
pub struct Said {
    // 0 for none: C has no Result.
    pub refusal: u32,
    pub answer: u32,
    pub number: u32,
    pub place: u32,
}

// A post as C has it: its two tests are numbers, since a C host may lend any.
#[repr(C)]
#[derive(Clone, Copy, Debug, Default, PartialEq, Eq)]
pub struct Posted {
    pub kind: u32,
    pub immediate: u32,
    pub fenced: u32,
    pub ticket: u32,
    pub offset: u64,
    pub length: u32,
    pub address: u64,
    pub key: u32,
    pub value: u32,
}
