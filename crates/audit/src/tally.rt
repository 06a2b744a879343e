// All queues, while each passes: which slots were a queue's last, and how many slots are held and claimed.
ghost use Rattle.std.specs.Prelude.{◌≡◌, true, false, None, Some, ◌+◌, ◌/◌, ◌%◌, ◌^◌, ◌≤◌, ◌<◌, max, leb, get_or, set, if◌then◌else◌};
ghost use Rattle.rules.specs.Card.{small};
ghost use Rattle.rules.specs.Passes.Tables.{has, put, claim_by, add_queue, is_new, tally_from, tally_fits, tally_step};
ghost use Rattle.rules.specs.Passes.Tests.{◌and◌};

use message::{Card, State};
use rules::carried::Tally;
use rules::{Pair, Queue};

// ---- a set of slot numbers

#[tactic(auto, unfolding(rules::specs::Passes::Tables::has))]
fn has_bit(words: [u64; 4], i: u32) -> bool
    requires { i < 256 }
    ensures { result ≡ has words i }
{
    (words[(i / 64) as usize] >> (i % 64)) % 2 == 1
}

fn put_bit(mut words: [u64; 4], i: u32) -> [u64; 4]
    requires { (i < 256) × (has words i ≡ false) }
    ensures { result ≡ put words i }
{
    words[(i / 64) as usize] += 1 << (i % 64);
    words
}

fn is_new(words: [u64; 4], q: Queue) -> bool
    ensures { result ≡ is_new small.slots words q }
{
    q.last < Card::SLOTS && !has_bit(words, q.last)
}

// ---- the tally

#[tactic(auto, unfolding(rules::specs::Passes::Tables::none_of))]
pub(crate) fn tally_from() -> Option<Tally>
    ensures { result ≡ tally_from small.slots }
{
    Some(Tally {
        words: [0; 4],
        held: 0,
        claimed: 0,
    })
}

// What a queue holds and its pair claims fits in beside those before.
pub(crate) fn has_room(t: Tally, held: u32, claim: u32) -> bool
    ensures { result ≡ (leb (t.held + held) small.slots and leb (t.claimed + claim) small.slots) }
{
    let slots = u64::from(Card::SLOTS);
    u64::from(t.held) + u64::from(held) <= slots && u64::from(t.claimed) + u64::from(claim) <= slots
}

pub(crate) fn claim_by(p: Pair) -> u32
    ensures { result ≡ claim_by p }
{
    if p.standing.state == State::Closed as u32 {
        0
    } else {
        p.standing.settings.share.max(p.queue.held)
    }
}

// A queue that holds something.
fn add_queue(t: Tally, q: Queue, claim: u32) -> Option<Tally>
    requires { (t.held + q.held ≤ 256) × (t.claimed + claim ≤ 256) }
    ensures { result ≡ (if is_new small.slots t.words q then Some (add_queue t (record { passed = true; queue = q; claim = claim })) else None) }
{
    if is_new(t.words, q) {
        Some(Tally {
            words: put_bit(t.words, q.last),
            held: t.held + q.held,
            claimed: t.claimed + claim,
        })
    } else {
        None
    }
}

fn tally_fits(t: Tally, passed: bool, q: Queue, claim: u32) -> bool
    ensures { result ≡ tally_fits small.slots t (record { passed = passed; queue = q; claim = claim }) }
{
    passed && has_room(t, q.held, claim)
}

pub(crate) fn tally_step(t: Option<Tally>, passed: bool, q: Queue, claim: u32) -> Option<Tally>
    ensures { result ≡ tally_step small.slots t (record { passed = passed; queue = q; claim = claim }) }
{
    let t = t?;
    if !tally_fits(t, passed, q, claim) {
        None
    } else if q.held == 0 {
        Some(Tally {
            claimed: t.claimed + claim,
            ..t
        })
    } else {
        add_queue(t, q, claim)
    }
}
