// The refusals of a request, in the order of the rules' one list: the first row that holds gives its refusal. Sums are in 64 bits, so that none runs over.
ghost use Rattle.std.specs.Prelude.{◌≡◌, [], ◌∷◌, ◌&&◌, ◌+◌, max, ltb, drop, is_some, Some};
ghost use Rattle.psn.specs.Psn.{half, distance};
ghost use Rattle.refusal.specs.Refusals.{◌gives◌, first_given};
ghost use Rattle.refusal.specs.declared.Refusal.TheVariants as refusal;
ghost use Rattle.rules.specs.Card.{small};
ghost use Rattle.rules.specs.Message.{slots_for, psns_for};
ghost use Rattle.rules.specs.Ranges.{over_ceiling};
ghost use Rattle.rules.specs.Refusals.{wrong_state, out_of_range};
ghost use Rattle.rules.specs.Requests.{needed};
ghost use Rattle.rules.specs.Response.{misfit};
ghost use Rattle.message.specs.Capped.{capped, tidy};
ghost use Rattle.engine.specs.Asked.{asked};
ghost use Rattle.engine.specs.Refusing.{crowded_by, crowded, unfit_by, refusal_rows, refusal_of};

use crate::{Ask, Scan};
use message::{
    Card, State, bad_budget, bad_elapsed, bad_post, bad_psn, bad_response, bad_settings,
    bad_syndrome, is_inside, length_at, over_ceiling, psns_for, slots_for, span,
};
use outcomes::{Found, at_last};
use psn::Psn;
use refusal::Refusal;
use rules::{Line, Packet, Pair, Post, Settings, Standing};
use walks::RECORD_BYTES;

// ---- 2, 3, 4

fn wrong_state(ask: Ask, state: u32) -> bool
    ensures { result ≡ wrong_state (asked ask []) state }
{
    match ask {
        Ask::Open { .. } => state != State::Closed as u32,
        Ask::Close => state == State::Closed as u32,
        _ => state != State::Ready as u32,
    }
}

fn out_of_range(ask: Ask) -> bool
    ensures { result ≡ out_of_range small (asked ask []) }
{
    match ask {
        Ask::Open { settings, first } => bad_settings(settings) || bad_psn(first),
        Ask::Post { post } => bad_post(post),
        Ask::Emit { budget } => bad_budget(budget),
        Ask::Acknowledge { psn, syndrome } => bad_psn(psn) || bad_syndrome(syndrome),
        Ask::Respond { psn, opcode, .. } => bad_psn(psn) || bad_response(opcode),
        Ask::Tick { elapsed } => bad_elapsed(elapsed),
        Ask::Close => false,
    }
}

// How long the lent buffer must be.
fn needed(ask: Ask) -> usize
    ensures { result ≡ needed small (asked ask []) }
{
    match ask {
        Ask::Open { .. } | Ask::Post { .. } => 0,
        Ask::Emit { budget } => RECORD_BYTES * budget as usize,
        _ => Card::NUMBERS,
    }
}

// ---- 7

// N would come too far from U.
fn too_far(s: Settings, l: Line, m: Post) -> bool
    ensures { result ≡ ltb half (distance l.u l.n + psns_for (capped s) m) }
{
    u64::from(Psn::HALF) < u64::from(Psn::distance(l.u, l.n)) + u64::from(psns_for(s, m))
}

// ---- 8

fn crowded_by(claimed: u32, share: u32) -> bool
    ensures { result ≡ crowded_by claimed share }
{
    u64::from(Card::SLOTS) < u64::from(claimed) + u64::from(share)
}

// The sum with the pair's claim of then in place of the one of now.
fn over_pool(claimed: u32, share: u32, held: u32, new: u32) -> bool
    ensures { result ≡ ltb (small.slots + max share held) (claimed + max share (held + new)) }
{
    let now = u64::from(share.max(held));
    let then = u64::from(share).max(u64::from(held) + u64::from(new));
    u64::from(Card::SLOTS) + now < u64::from(claimed) + then
}

#[tactic(auto, unfolding(message::specs::Capped::capped))]
fn crowded(claimed: u32, s: Settings, held: u32, new: u32) -> bool
    ensures { result ≡ crowded claimed (capped s) held new }
{
    u64::from(s.ceiling) < u64::from(held) + u64::from(new)
        || over_pool(claimed, s.share, held, new)
}

// ---- 9

// PSN, opcode and length stay three: they are the call's three numbers, as the definitions and C take them.
fn misfit(s: Settings, r: u32, opcode: u32, len: u32, p: Packet) -> bool
    ensures { result ≡ misfit (capped s) r opcode len p }
{
    let due = length_at(s, p.length, span(s, p), Psn::distance(p.psn, r));
    len != due || (15 <= opcode) != at_last(s, r, p)
}

fn unfit_by(t: Standing, f: Option<Found>, r: u32, opcode: u32, len: u32) -> bool
    ensures { result ≡ unfit_by (tidy t) f r opcode len }
{
    is_inside(t.line, r) && f.is_none_or(|f| misfit(t.settings, r, opcode, len, f.packet))
}

// ---- the list

fn post_rows(claimed: u32, p: Pair, f: Option<Found>, m: Post) -> Option<Refusal>
    ensures { result ≡ first_given (
        over_ceiling (tidy p.standing).settings m gives refusal.Ceiling
        ∷ (m.fenced && is_some f) gives refusal.Fence
        ∷ ltb half (distance p.standing.line.u p.standing.line.n + psns_for (tidy p.standing).settings m) gives refusal.Distance
        ∷ crowded claimed (tidy p.standing).settings p.queue.held (slots_for (tidy p.standing).settings m) gives refusal.Room
        ∷ []) }
{
    let t = p.standing;
    let s = t.settings;
    if over_ceiling(s, m) {
        Some(Refusal::Ceiling)
    } else if m.fenced && f.is_some() {
        Some(Refusal::Fence)
    } else if too_far(s, t.line, m) {
        Some(Refusal::Distance)
    } else if crowded(claimed, s, p.queue.held, slots_for(s, m)) {
        Some(Refusal::Room)
    } else {
        None
    }
}

// What one kind of request alone can meet: 5 to 9.
fn own_rows(claimed: u32, p: Pair, c: Scan, ask: Ask) -> Option<Refusal>
    ensures { result ≡ first_given (drop 5 (refusal_rows (Some claimed) 0 p c ask 0)) }
{
    match ask {
        Ask::Open { settings, .. } => {
            crowded_by(claimed, settings.share).then_some(Refusal::Room)
        }
        Ask::Post { post } => post_rows(claimed, p, c.main.found, post),
        Ask::Respond {
            psn,
            opcode,
            length,
        } => unfit_by(p.standing, c.read.found, psn, opcode, length).then_some(Refusal::Response),
        _ => None,
    }
}

#[tactic(auto, unfolding(crate::specs::Refusing::refusal_of))]
pub fn refusal(v: Option<u32>, at: u32, p: Pair, c: Scan, ask: Ask, room: usize) -> Option<Refusal>
    ensures { result ≡ refusal_of v at p c ask room }
{
    let Some(claimed) = v else {
        return Some(Refusal::Audit);
    };
    if Card::PAIRS <= at {
        Some(Refusal::Pair)
    } else if wrong_state(ask, p.standing.state) {
        Some(Refusal::State)
    } else if out_of_range(ask) {
        Some(Refusal::Range)
    } else if room < needed(ask) {
        Some(Refusal::Buffer)
    } else {
        own_rows(claimed, p, c, ask)
    }
}
