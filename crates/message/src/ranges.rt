// Document 01's ranges for 3, and refusal 5.
ghost use Rattle.std.specs.Prelude.{◌≡◌, ◌&&◌, ◌+◌, ◌^◌, ◌<◌, ltb};
ghost use Rattle.psn.specs.Psn.{distance};
ghost use Rattle.rules.specs.Card.{small};
ghost use Rattle.rules.specs.Message.{asks_read};
ghost use Rattle.rules.specs.Ranges.{bad_settings, bad_psn, bad_post, bad_budget, bad_syndrome, bad_response, bad_elapsed, over_ceiling};
ghost use Rattle.message.specs.Capped.{capped};

use crate::Card;
use crate::sizes::{asks_read, slots_for};
use psn::Psn;
use rules::{Line, Post, Settings};

#[tactic(auto, unfolding(rules::specs::Ranges::bad_settings))]
pub fn bad_settings(s: Settings) -> bool
    ensures { result ≡ bad_settings small s }
{
    Psn::COUNT <= s.far
        || 65_536 <= s.pkey
        || s.pmtu < 1
        || 5 < s.pmtu
        || s.share < 1
        || s.ceiling < s.share
        || Card::SLOTS < s.ceiling
        || 7 < s.retry
        || 7 < s.rnr
        || 31 < s.timeout
}

pub fn bad_psn(a: u32) -> bool
    ensures { result ≡ bad_psn a }
{
    Psn::COUNT <= a
}

// Bytes of the card's memory past 2^32.
fn past_memory(offset: u64, len: u32) -> bool
    ensures { result ≡ ltb (2 ^ 32) (offset + len) }
{
    4_294_967_296 - u64::from(len) < offset
}

fn past_addresses(address: u64, len: u32) -> bool
    requires { 0 < len }
    ensures { result ≡ ltb (2 ^ 64) (address + len) }
{
    u64::MAX - (u64::from(len) - 1) < address
}

// A Write or read whose bytes run past 2^64.
fn too_far(m: Post) -> bool
    ensures { result ≡ (ltb 0 m.kind && ltb 0 m.length && ltb (2 ^ 64) (m.address + m.length)) }
{
    0 < m.kind && 0 < m.length && past_addresses(m.address, m.length)
}

#[tactic(auto, unfolding(rules::specs::Ranges::bad_post))]
pub fn bad_post(m: Post) -> bool
    ensures { result ≡ bad_post m }
{
    2 < m.kind
        || (asks_read(m) && m.immediate)
        || 2_147_483_648 <= m.length
        || 4_294_967_296 <= m.offset
        || past_memory(m.offset, m.length)
        || too_far(m)
}

const LARGEST_BUDGET: u32 = 64;

pub fn bad_budget(n: u32) -> bool
    ensures { result ≡ bad_budget n }
{
    n < 1 || LARGEST_BUDGET < n
}

// A syndrome is an ACK, an RNR or a NAK of codes 0 to 3.
pub fn bad_syndrome(y: u32) -> bool
    ensures { result ≡ bad_syndrome y }
{
    match y / 32 {
        0 | 1 => false,
        3 => 3 < y % 32,
        _ => true,
    }
}

pub fn bad_response(op: u32) -> bool
    ensures { result ≡ bad_response op }
{
    !matches!(op, 13..=16)
}

pub fn bad_elapsed(e: u64) -> bool
    ensures { result ≡ bad_elapsed e }
{
    4_294_967_296 <= e
}

// 5: a post of more slots than the pair's ceiling.
#[tactic(auto, unfolding(crate::specs::Capped::capped))]
pub fn over_ceiling(s: Settings, m: Post) -> bool
    ensures { result ≡ over_ceiling (capped s) m }
{
    s.ceiling < slots_for(s, m)
}

// R is unacknowledged and has been emitted: from U up to H.
pub fn is_inside(line: Line, r: u32) -> bool
    ensures { result ≡ ltb (distance line.u r) (distance line.u line.h) }
{
    Psn::distance(line.u, r) < Psn::distance(line.u, line.h)
}
