// The messages of a ready pair: each record goes on with the message that the one before left open, or begins one.
ghost use Rattle.std.specs.Prelude.{◌≡◌, true, suc, ◌≤◌, ◌<◌, ltb, leb, eqb, if◌then◌else◌};
ghost use Rattle.rules.specs.Message.{pmtu, packets_for, packet_at};
ghost use Rattle.rules.specs.Passes.Stage.{same, allowed_to, alone, single, heading, opens, begun, new_message};
ghost use Rattle.rules.specs.Passes.Stage.{post_of, more, goes_on, closes, inner, is_rear, behind, stage_step, stage_ends};
ghost use Rattle.rules.specs.Passes.Tests.{◌and◌};
ghost use Rattle.rules.specs.declared.carried.Stage.TheVariants.{Start};
ghost use Rattle.message.specs.Capped.{capped};
ghost use Rattle.audit.specs.Stages.{rear, lead, resume};

use crate::made::{is_made, is_packet_at};
use message::{bad_post, has_immediate, is_read, mtu, opcode_at, over_ceiling, packets_for};
use psn::Psn;
use rules::carried::{Begun, Stage};
use rules::{Packet, Post, Settings};

// A post that meets neither 3 nor 5.
#[tactic(auto, using(crate::proofs::Both::both), unfolding(rules::specs::Passes::Stage::allowed_to))]
fn allowed_to(s: Settings, m: Post) -> bool
    ensures { result ≡ allowed_to (capped s) m }
{
    !bad_post(m) && !over_ceiling(s, m)
}

// ---- a message of one record

fn alone(p: Packet) -> Post
    ensures { result ≡ alone p }
{
    Post {
        immediate: has_immediate(u64::from(p.opcode)),
        length: p.length,
        value: p.value,
        ..heading(p)
    }
}

fn is_only(s: Settings, p: Packet, m: Post) -> bool
    ensures { result ≡ (leb p.opcode 11 and eqb (packets_for (pmtu (capped s)) m.length) 1 and same p (packet_at (capped s) m p.psn 0)) }
{
    let op = opcode_at(m, 1, 0);
    p.opcode <= 11
        && packets_for(s, m.length) == 1
        && is_made(p, op, m, Psn::plus(p.psn, 0), m.offset, m.length)
}

// A Read Request announces its own length and has no immediate; the rest of it is its post's.
fn is_request(p: Packet) -> bool
    ensures { result ≡ (eqb p.total p.length and eqb p.value 0) }
{
    p.total == p.length && p.value == 0
}

#[tactic(auto, using(crate::proofs::Both::both), unfolding(rules::specs::Passes::Stage::single))]
fn is_single(s: Settings, p: Packet) -> bool
    ensures { result ≡ single (capped s) p }
{
    if is_read(p) {
        allowed_to(s, alone(p)) && is_request(p)
    } else if p.opcode % 6 < 4 {
        // A First, Middle or Last is no message by itself.
        false
    } else {
        let m = alone(p);
        allowed_to(s, m) && is_only(s, p, m)
    }
}

// ---- a message of several. Settings, what has begun and the record stay three arguments, as the definitions have them.

fn heading(p: Packet) -> Post
    ensures { result ≡ heading p }
{
    Post {
        kind: p.opcode / 6,
        immediate: false,
        fenced: false,
        ticket: p.ticket,
        offset: u64::from(p.offset),
        length: p.total,
        address: p.address,
        key: p.key,
        value: 0,
    }
}

#[tactic(auto, using(crate::proofs::Both::both), unfolding(rules::specs::Passes::Stage::opens))]
fn opens(s: Settings, p: Packet) -> bool
    ensures { result ≡ opens (capped s) p }
{
    let m = heading(p);
    let op = 6 * u64::from(m.kind);
    p.opcode <= 6 && is_made(p, op, m, Psn::plus(p.psn, 0), m.offset, mtu(s))
}

fn begun(p: Packet) -> Begun
    ensures { result ≡ begun p }
{
    Begun {
        whole: true,
        kind: p.opcode / 6,
        ticket: p.ticket,
        offset: p.offset,
        address: p.address,
        total: p.total,
        first: p.psn,
        count: 1,
    }
}

fn new_message(s: Settings, p: Packet) -> Option<Stage>
    ensures { result ≡ new_message (capped s) p }
{
    if is_single(s, p) {
        Some(Stage::Between)
    } else {
        opens(s, p).then_some(Stage::Inside(begun(p)))
    }
}

fn post_of(w: Begun, immediate: bool, len: u32, value: u32) -> Post
    ensures { result ≡ post_of w immediate len value }
{
    Post {
        kind: w.kind,
        immediate,
        fenced: false,
        ticket: w.ticket,
        offset: u64::from(w.offset),
        length: len,
        address: w.address,
        key: 0,
        value,
    }
}

#[tactic(auto, using(crate::proofs::Both::both), unfolding(rules::specs::Passes::Stage::goes_on))]
fn goes_on(s: Settings, w: Begun, p: Packet) -> bool
    ensures { result ≡ goes_on (capped s) w p }
{
    let op = 6 * u64::from(w.kind) + 1;
    // Most records that are no Middle are told from one by this alone.
    if u64::from(p.opcode) != op {
        return false;
    }
    let size = mtu(s);
    let m = post_of(w, false, w.total, 0);
    let offset = m.offset + u64::from(w.count) * u64::from(size);
    is_made(p, op, m, Psn::plus(w.first, w.count), offset, size)
        && u64::from(w.count) + 1 < u64::from(s.ceiling)
}

fn more(w: Begun) -> Begun
    requires { w.count < 4294967295 }
    ensures { result ≡ more w }
{
    Begun {
        count: w.count + 1,
        ..w
    }
}

fn closes_as(s: Settings, w: Begun, p: Packet, m: Post) -> bool
    requires { m.offset < 4294967296 }
    ensures { result ≡ (
        allowed_to (capped s) m
        and eqb (packets_for (pmtu (capped s)) m.length) (suc w.count)
        and same p (packet_at (capped s) m w.first w.count)
        and (if w.whole and eqb w.kind 1 then eqb w.total m.length else true)) }
{
    // Where a Write's First was seen, it told the length.
    let told = w.whole && w.kind == 1;
    allowed_to(s, m)
        && u64::from(packets_for(s, m.length)) == u64::from(w.count) + 1
        && is_packet_at(s, p, m, w.first, w.count)
        && (!told || w.total == m.length)
}

// A message of 2^31 bytes is not allowed.
#[tactic(auto, using(crate::proofs::Both::both), unfolding(rules::specs::Passes::Stage::closes))]
fn closes(s: Settings, w: Begun, p: Packet) -> bool
    ensures { result ≡ closes (capped s) w p }
{
    let len = u64::from(w.count) * u64::from(mtu(s)) + u64::from(p.length);
    if 2_147_483_648 <= len {
        return false;
    }
    let immediate = has_immediate(u64::from(p.opcode));
    closes_as(s, w, p, post_of(w, immediate, len as u32, p.value))
}

fn inner(s: Settings, w: Begun, p: Packet) -> Option<Stage>
    ensures { result ≡ inner (capped s) w p }
{
    if goes_on(s, w, p) {
        Some(Stage::Inside(more(w)))
    } else {
        closes(s, w, p).then_some(Stage::Between)
    }
}

// ---- a message of which only the rear is held

fn is_rear(p: Packet) -> bool
    ensures { result ≡ is_rear p }
{
    p.opcode <= 11 && matches!(p.opcode % 6, 1..=3)
}

fn behind(s: Settings, p: Packet) -> Begun
    requires { pmtu (capped s) ≤ p.offset }
    ensures { result ≡ behind (capped s) p }
{
    Begun {
        whole: false,
        offset: p.offset - mtu(s),
        address: 0,
        total: 0,
        first: Psn::plus(p.psn, Psn::COUNT - 1),
        ..begun(p)
    }
}

fn rear(s: Settings, p: Packet) -> Option<Stage>
    ensures { result ≡ rear (capped s) p }
{
    if mtu(s) <= p.offset {
        Some(Stage::Inside(behind(s, p)))
    } else {
        None
    }
}

// ---- all messages

// Where a record stands. The two steps make one call each of what looks into a record: all is compiled into one loop.
fn lead(s: Settings, w: Stage, p: Packet) -> Option<Stage>
    ensures { result ≡ lead (capped s) w p }
{
    match w {
        Stage::Start if is_rear(p) => rear(s, p),
        Stage::Start => Some(Stage::Between),
        _ => Some(w),
    }
}

// What the record at such a place makes of it.
fn resume(s: Settings, w: Stage, p: Packet) -> Option<Stage>
    ensures { result ≡ resume (capped s) w p }
{
    match w {
        Stage::Between => new_message(s, p),
        Stage::Inside(m) => inner(s, m, p),
        Stage::Start => None,
    }
}

pub(crate) fn stage_step(s: Settings, w: Option<Stage>, p: Packet) -> Option<Stage>
    ensures { result ≡ stage_step (capped s) w p }
{
    resume(s, lead(s, w?, p)?, p)
}

pub(crate) fn stage_ends(w: Option<Stage>) -> bool
    ensures { result ≡ stage_ends w }
{
    matches!(w, Some(Stage::Start | Stage::Between))
}
