// What a packet says, and what a pair's line says of it. Settings and packet stay two arguments, as settings and post, and a standing and a packet, do elsewhere and
// in the definitions: nothing is true of the two together that is not true of each.
ghost use Rattle.std.specs.Prelude.{◌≡◌, ◌≤◌};
ghost use Rattle.psn.specs.Psn.{before};
ghost use Rattle.rules.specs.Message.{is_read, is_last, span, unanswered};
ghost use Rattle.rules.specs.Emission.{ends};
ghost use Rattle.rules.specs.Response.{covers};
ghost use Rattle.rules.specs.Release.{passed_by, stays};
ghost use Rattle.message.specs.Capped.{capped, tidy};

use crate::sizes::packets_for;
use psn::Psn;
use rules::{Packet, Settings, Standing};
use wire::is_last;

pub const READ_REQUEST: u32 = 12;

pub fn is_read(p: Packet) -> bool
    ensures { result ≡ is_read p }
{
    p.opcode == READ_REQUEST
}

// The PSNs that it takes.
pub fn span(s: Settings, p: Packet) -> u32
    ensures { (result ≡ span (capped s) p) × (1 ≤ result) × (result ≤ 33554432) }
{
    if is_read(p) {
        packets_for(s, p.length)
    } else {
        1
    }
}

// The PSN after its last.
pub fn ends(s: Settings, p: Packet) -> u32
    ensures { result ≡ ends (capped s) p }
{
    Psn::plus(p.psn, span(s, p))
}

pub fn ends_message(p: Packet) -> bool
    ensures { result ≡ is_last p }
{
    is_last(u64::from(p.opcode))
}

// A read's first unanswered PSN.
pub fn unanswered(t: Standing, p: Packet) -> u32
    ensures { result ≡ unanswered (tidy t) p }
{
    if Psn::distance(p.psn, t.line.u) < span(t.settings, p) {
        t.line.u
    } else {
        p.psn
    }
}

// R is one of the read's PSNs.
pub fn covers(s: Settings, r: u32, p: Packet) -> bool
    ensures { result ≡ covers (capped s) r p }
{
    is_read(p) && Psn::distance(p.psn, r) < span(s, p)
}

// A release before B does not take it.
pub fn stays(b: u32, t: Standing, p: Packet) -> bool
    ensures { result ≡ stays b t p }
{
    is_read(p) || !Psn::before(t.line.u, p.psn, b)
}

// A read whose first unanswered PSN is before B.
pub fn passed_by(b: u32, t: Standing, p: Packet) -> bool
    ensures { result ≡ passed_by b (tidy t) p }
{
    is_read(p) && Psn::before(t.line.u, unanswered(t, p), b)
}

// It ends after X.
pub fn after_x(t: Standing, p: Packet) -> bool
    ensures { result ≡ before t.line.u t.line.x (ends (capped t.settings) p) }
{
    Psn::before(t.line.u, t.line.x, ends(t.settings, p))
}
