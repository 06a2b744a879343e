// The header layer: a header's fields to bytes and back. It knows layouts and opcodes, and nothing of pairs.
#![tactic(auto)]

mod opcode;
mod reader;
mod writer;

pub use opcode::{Carries, has_immediate, has_reth, is_last};
pub use reader::read;
use refusal::Refusal;
pub use writer::write;

// A header's fields by value; those that its opcode lacks are not written and read as 0.
#[derive(Clone, Copy, Debug, PartialEq, Eq)]
pub struct Header {
    pub opcode: u8,
    pub pad: u8,
    pub pkey: u16,
    pub far: u32,
    pub psn: u32,
    pub address: u64,
    pub key: u32,
    pub length: u32,
    pub value: u32,
    pub syndrome: u8,
    pub msn: u32,
}

// A header goes out as this many bytes, zeros after its own.
pub const HEADER_BYTES: usize = 32;

// Document 01 has 32 bytes by value, and there is no heap. Those of a refused header are zeros.
#[derive(Clone, Copy, Debug, PartialEq, Eq)]
pub struct Written {
    // How many of the bytes are the header's.
    pub size: Result<u32, Refusal>,
    pub bytes: [u8; HEADER_BYTES],
}

// What a frame holds, with the length of its headers and of its payload.
#[derive(Clone, Copy, Debug, PartialEq, Eq)]
pub struct Frame {
    pub header: Header,
    pub length: u32,
    pub payload: usize,
}
