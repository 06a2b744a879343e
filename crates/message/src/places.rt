// The packet at a place of a post's split, and a packet as it is emitted. Sums are cut to their fields; on a pair that passes the audit nothing is cut.
ghost use Rattle.std.specs.Prelude.{◌≡◌, ◌+◌, ◌-◌, ◌*◌, ◌%◌, ◌^◌, ◌≤◌, eqb, if◌then◌else◌};
ghost use Rattle.psn.specs.Psn.{distance};
ghost use Rattle.rules.specs.Message.{pmtu, made, packet_at, unanswered};
ghost use Rattle.message.specs.Capped.{capped, tidy, cut};
ghost use Rattle.message.specs.Places.{place_at, sent_by};

use crate::opcodes::opcode_at;
use crate::packets::{READ_REQUEST, is_read, unanswered};
use crate::sizes::{asks_read, length_at, mtu, psns_for};
use psn::Psn;
use rules::{Packet, Post, Settings, Standing};
use wire::{has_immediate, has_reth};

// The bytes of so many packets.
fn bytes_of(s: Settings, n: u32) -> u64
    ensures { result ≡ n * pmtu (capped s) }
{
    u64::from(n) * u64::from(mtu(s))
}

fn offset_at(offset: u64, by: u64) -> u32
    ensures { result ≡ (offset + by) % 2 ^ 32 }
{
    (offset.wrapping_add(by) % 4_294_967_296) as u32
}

fn address_at(address: u64, by: u64) -> u64
    ensures { result ≡ (if eqb (address + by) address then address else (address + by) % 2 ^ 64) }
{
    address.wrapping_add(by)
}

fn rest_of(all: u32, by: u64) -> u32
    ensures { result ≡ all - by }
{
    u64::from(all).saturating_sub(by) as u32
}

fn make(op: u64, m: Post, psn: u32, offset: u32, len: u32) -> Packet
    ensures { result ≡ cut (made op m psn offset len) }
{
    let (address, key, total) = if has_reth(op) {
        (m.address, m.key, m.length)
    } else {
        (0, 0, 0)
    };
    Packet {
        psn,
        ticket: m.ticket,
        opcode: (op % 256) as u32,
        offset,
        length: len,
        address,
        key,
        total,
        value: if has_immediate(op) { m.value } else { 0 },
    }
}

fn packet_at(s: Settings, m: Post, first: u32, i: u32) -> Packet
    ensures { result ≡ cut (packet_at (capped s) m first i) }
{
    let n = psns_for(s, m);
    make(
        opcode_at(m, n, i),
        m,
        Psn::plus(first, i),
        offset_at(m.offset, bytes_of(s, i)),
        length_at(s, m.length, n, i),
    )
}

// Place i of a post whose first PSN is given; a read has one place.
pub fn place_at(s: Settings, m: Post, first: u32, i: u32) -> Packet
    ensures { result ≡ cut (place_at (capped s) m first i) }
{
    if asks_read(m) {
        let offset = (m.offset % 4_294_967_296) as u32;
        make(u64::from(READ_REQUEST), m, first, offset, m.length)
    } else {
        packet_at(s, m, first, i)
    }
}

// The bytes of a read that are answered.
fn answered(t: Standing, p: Packet) -> u64
    ensures { result ≡ distance p.psn (unanswered (tidy t) p) * pmtu (capped t.settings) }
{
    bytes_of(t.settings, Psn::distance(p.psn, unanswered(t, p)))
}

// A packet as its record says it: a read that is partly answered asks for the rest.
pub fn sent(t: Standing, p: Packet) -> Packet
    ensures { result ≡ sent_by (tidy t) p }
{
    let opcode = p.opcode % 256;
    if !is_read(p) {
        return Packet { opcode, ..p };
    }
    let by = answered(t, p);
    Packet {
        psn: unanswered(t, p),
        opcode,
        offset: offset_at(u64::from(p.offset), by),
        length: 0,
        address: address_at(p.address, by),
        total: rest_of(p.total, by),
        ..p
    }
}
