// Packets on their way out: one step of the walk, and the record of one packet in the lent bytes.
ghost use Rattle.std.specs.Prelude.{◌≡◌, ◌+◌, ◌^◌, ◌≤◌, ◌<◌};
ghost use Rattle.wire.specs.Bytes.{bytes as Bytes·bytes};
ghost use Rattle.rules.specs.Emission.{pad_for, header_of, record_bytes};
ghost use Rattle.message.specs.Capped.{capped};
ghost use Rattle.walks.specs.Acting.{emit_step, record_of, placed, recorded};

use crate::Emitting;
use message::{ends, sent};
use rules::{Packet, Settings, Slot};
use wire::{HEADER_BYTES, Header, write};

// A header's bytes, and four numbers of four.
pub const RECORD_BYTES: usize = HEADER_BYTES + 4 * 4;

// One packet on; X comes to stand where it ends.
pub fn emit_step(w: Emitting, i: Slot) -> Emitting
    ensures { result ≡ emit_step w i }
{
    Emitting {
        left: w.left.saturating_sub(1),
        at: i.link,
        x: ends(w.standing.settings, i.packet),
        ..w
    }
}

// ---- the header

// The payload is filled to a multiple of 4.
fn pad_for(len: u32) -> u8
    ensures { result ≡ pad_for len }
{
    ((4 - len % 4) % 4) as u8
}

#[tactic(auto, unfolding(message::specs::Capped::capped))]
fn header_of(s: Settings, q: Packet) -> Header
    requires { q.opcode < 2 ^ 8 }
    ensures { result ≡ header_of (capped s) q }
{
    Header {
        opcode: q.opcode as u8,
        pad: pad_for(q.length),
        // `% 65_536`: a host may lend more than 16 bits, and what `as` casts must fit.
        pkey: (s.pkey % 65_536) as u16,
        far: s.far,
        psn: q.psn,
        address: q.address,
        key: q.key,
        length: q.total,
        value: q.value,
        syndrome: 0,
        msn: 0,
    }
}

// ---- the record

// A number at its place in a record.
fn put_number(out: &mut [u8; RECORD_BYTES], at: usize, n: u32)
    requires { at + 4 ≤ record_bytes }
    ensures { out.new ≡ placed at (Bytes·bytes 4 n) out.old }
{
    out[at..at + 4].copy_from_slice(&n.to_be_bytes());
}

fn record_of(s: Settings, q: Packet) -> [u8; RECORD_BYTES]
    requires { q.opcode < 2 ^ 8 }
    ensures { result ≡ record_of (capped s) q }
{
    let written = write(header_of(s, q));
    let mut record = [0; RECORD_BYTES];
    record[..HEADER_BYTES].copy_from_slice(&written.bytes);
    put_number(&mut record, HEADER_BYTES, written.size.unwrap_or(0));
    put_number(&mut record, HEADER_BYTES + 4, q.ticket);
    put_number(&mut record, HEADER_BYTES + 8, q.offset);
    put_number(&mut record, HEADER_BYTES + 12, q.length);
    record
}

// The packet's record, behind those that are written; nothing where it does not fit.
pub fn emit_record(out: &mut [u8], w: Emitting, i: Slot)
    ensures { out.new ≡ recorded out.old w i }
{
    let t = w.standing;
    let at = RECORD_BYTES * w.total.saturating_sub(w.left) as usize;
    let end = at + RECORD_BYTES;
    // By its range: through `get_mut` a proof learns nothing of the bytes after but their length.
    if end <= out.len() {
        out[at..end].copy_from_slice(&record_of(t.settings, sent(t, i.packet)));
    }
}
