// What an acknowledgement or a read response makes of a pair.
ghost use Rattle.std.specs.Prelude.{◌≡◌, ◌≤◌, min};
ghost use Rattle.rules.specs.Outcome.{staying, ended_standing};
ghost use Rattle.rules.specs.Ranges.{low_bits};
ghost use Rattle.rules.specs.Acknowledge.{back_to_u, resending, ack, ended_after, rnr, wait_of, answered};
ghost use Rattle.rules.specs.Response.{at_last, taken, responded};
ghost use Rattle.message.specs.Capped.{capped, tidy};
ghost use Rattle.outcomes.specs.Finding.{bound_of};
ghost use Rattle.outcomes.specs.Deciding.{release_by, acknowledged, responded_to};

use crate::Found;
use crate::releasing::{further, release_by, renewed};
use message::{Card, State, is_inside, span, tidied};
use psn::Psn;
use rules::{Answer, Clock, Line, Outcome, Packet, Release, Settings, Standing};

// The RNR waits, in units of 10,000 ns, by the low five bits.
const WAITS: [u32; 32] = [
    65536, 1, 2, 3, 4, 6, 8, 12, 16, 24, 32, 48, 64, 96, 128, 192, 256, 384, 512, 768, 1024, 1536,
    2048, 3072, 4096, 6144, 8192, 12288, 16384, 24576, 32768, 49152,
];

const WAIT_UNIT: u64 = 10_000;

fn wait_of(syndrome: u32) -> u64
    ensures { result ≡ wait_of (low_bits syndrome) }
{
    WAIT_UNIT * u64::from(WAITS[(syndrome % 32) as usize])
}

pub(crate) fn back_to_u(retries: u32, rnrs: u32, hold: u64, t: Standing) -> Standing
    ensures { result ≡ back_to_u retries rnrs hold t }
{
    let l = t.line;
    let line = Line { x: l.u, ..l };
    let clock = Clock {
        retries,
        rnrs,
        elapsed: 0,
        hold,
    };
    Standing { line, clock, ..t }
}

pub(crate) fn ended_standing(t: Standing) -> Standing
    ensures { result ≡ ended_standing t }
{
    let n = t.line.n;
    Standing {
        state: State::Ended as u32,
        line: Line {
            u: n,
            x: n,
            h: n,
            n,
        },
        clock: Clock {
            elapsed: 0,
            hold: 0,
            ..t.clock
        },
        ..t
    }
}

// No packet leaves.
pub(crate) fn staying(answer: Answer, standing: Standing) -> Outcome
    ensures { result ≡ staying answer standing }
{
    Outcome {
        answer,
        released: 0,
        flushed: 0,
        standing,
    }
}

// A release, and then X back at U.
fn resending(g: Release) -> Outcome
    ensures { result ≡ resending g }
{
    let c = g.standing.clock;
    Outcome {
        answer: Answer::Resending,
        released: g.released,
        flushed: 0,
        standing: back_to_u(c.retries, c.rnrs, c.hold, g.standing),
    }
}

fn ack(g: Release) -> Outcome
    ensures { result ≡ ack g }
{
    if g.stopped {
        return resending(g);
    }
    Outcome {
        answer: Answer::Done,
        released: g.released,
        flushed: 0,
        standing: g.standing,
    }
}

// A release, and then the end of the pair, which flushes the rest.
fn ended_after(held: u32, g: Release) -> Outcome
    ensures { result ≡ ended_after held g }
{
    Outcome {
        answer: Answer::Ended,
        released: g.released,
        flushed: held.saturating_sub(g.released),
        standing: ended_standing(g.standing),
    }
}

fn rnr(s: Settings, wait: u64, held: u32, g: Release) -> Outcome
    ensures { result ≡ rnr s wait held g }
{
    let c = g.standing.clock;
    let counts = s.rnr < 7;
    if counts && c.rnrs == 0 {
        return ended_after(held, g);
    }
    let left = if counts {
        c.rnrs.saturating_sub(1)
    } else {
        c.rnrs
    };
    Outcome {
        answer: Answer::Held,
        released: g.released,
        flushed: 0,
        standing: back_to_u(c.retries, left, wait, g.standing),
    }
}

// An ACK releases what it answers too, a NAK or an RNR what is before it.
pub fn bound_of(r: u32, syndrome: u32) -> u32
    ensures { result ≡ bound_of r syndrome }
{
    if syndrome / 32 == 0 { Psn::next(r) } else { r }
}

// After the release, whatever it was before, by the syndrome's top bits.
fn answered(s: Settings, syndrome: u32, held: u32, g: Release) -> Outcome
    ensures { result ≡ answered s 0 syndrome held (λ _. g) }
{
    // No enum of syndromes: the host's number goes by its top and low bits, as in `bound_of` and document 01.
    match syndrome / 32 {
        0 => ack(g),
        1 => rnr(s, wait_of(syndrome), held, g),
        _ if syndrome % 32 <= 2 => resending(g),
        _ => ended_after(held, g),
    }
}

// An acknowledgement for R: dropped, unless R is inside the open range.
pub fn acknowledged(r: u32, syndrome: u32, held: u32, f: Option<Found>, t: Standing) -> Outcome
    ensures { result ≡ acknowledged r syndrome held f (tidy t) }
{
    let now = tidied(t);
    if !is_inside(t.line, r) {
        return staying(Answer::Dropped, now);
    }
    let g = release_by(held, f, t, bound_of(r, syndrome));
    answered(now.settings, syndrome, held, g)
}

fn taken(found: u32, a: u32, t: Standing) -> Standing
    ensures { result ≡ taken found a t }
{
    let l = t.line;
    Standing {
        line: Line {
            u: a,
            x: further(found, l.x, a),
            ..l
        },
        clock: renewed(t.settings, t.clock),
        ..t
    }
}

// R's place is the read's last.
pub fn at_last(s: Settings, r: u32, p: Packet) -> bool
    ensures { result ≡ at_last (capped s) r p }
{
    u64::from(Psn::distance(p.psn, r)) + 1 == u64::from(span(s, p))
}

fn responded(found: u32, r: u32, ending: bool, g: Release) -> Outcome
    requires { g.released ≤ 256 }
    ensures { result ≡ responded found r ending g }
{
    if g.stopped {
        return resending(g);
    }
    Outcome {
        answer: Answer::Done,
        released: g.released + u32::from(ending),
        flushed: 0,
        standing: taken(found, Psn::next(r), g.standing),
    }
}

// A read response for R, p being the read that has it; no pair holds more than there are slots.
pub fn responded_to(r: u32, held: u32, f: Option<Found>, p: Packet, t: Standing) -> Outcome
    ensures { result ≡ responded_to r (min held 256) f p (tidy t) }
{
    if !is_inside(t.line, r) {
        return staying(Answer::Dropped, tidied(t));
    }
    let g = release_by(held.min(Card::SLOTS), f, t, r);
    responded(t.line.u, r, at_last(t.settings, r, p), g)
}
