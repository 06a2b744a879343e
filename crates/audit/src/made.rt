// A record, compared field by field with the one that must stand there. That one is not built: its offset may pass 32 bits.
ghost use Rattle.std.specs.Prelude.{◌≡◌, ◌<◌, eqb};
ghost use Rattle.rules.specs.Message.{made, packet_at};
ghost use Rattle.rules.specs.Passes.Stage.{same};
ghost use Rattle.rules.specs.Passes.Tests.{◌and◌};
ghost use Rattle.message.specs.Capped.{capped};

use message::{has_immediate, has_reth, length_at, mtu, opcode_at, psns_for};
use psn::Psn;
use rules::{Packet, Post, Settings};

// What its header needs, other fields 0; message's `make` has the same tests where it builds a packet.
fn needs_made(p: Packet, op: u64, m: Post) -> bool
    ensures { result ≡ (let q = made op m 0 0 0 in eqb p.address q.address and eqb p.key q.key and eqb p.total q.total and eqb p.value q.value) }
{
    let (address, key, total) = if has_reth(op) {
        (m.address, m.key, m.length)
    } else {
        (0, 0, 0)
    };
    let value = if has_immediate(op) { m.value } else { 0 };
    p.address == address && p.key == key && p.total == total && p.value == value
}

// This record is as a post makes it.
pub(crate) fn is_made(p: Packet, op: u64, m: Post, psn: u32, offset: u64, len: u32) -> bool
    ensures { result ≡ same p (made op m psn offset len) }
{
    p.psn == psn
        && p.ticket == m.ticket
        && u64::from(p.opcode) == op
        && u64::from(p.offset) == offset
        && p.length == len
        && needs_made(p, op, m)
}

// This record is the one at place i of a Send or Write.
pub(crate) fn is_packet_at(s: Settings, p: Packet, m: Post, first: u32, i: u32) -> bool
    requires { m.offset < 4294967296 }
    ensures { result ≡ same p (packet_at (capped s) m first i) }
{
    let n = psns_for(s, m);
    let op = opcode_at(m, n, i);
    let offset = m.offset + u64::from(i) * u64::from(mtu(s));
    let len = length_at(s, m.length, n, i);
    is_made(p, op, m, Psn::plus(first, i), offset, len)
}
