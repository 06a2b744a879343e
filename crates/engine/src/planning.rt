// What a call is to do, from the audit's answer, the pair's record, the scan, the arguments and the lent buffer's length.
ghost use Rattle.std.specs.Prelude.{◌≡◌, ◌+◌, ◌^◌, ◌≤◌, ◌<◌, Ok};
ghost use Rattle.rules.specs.Outcome.{opened, closing_all};
ghost use Rattle.rules.specs.Posting.{raised};
ghost use Rattle.rules.specs.Response.{place_of};
ghost use Rattle.rules.specs.Calls.{place_if};
ghost use Rattle.message.specs.Capped.{capped, tidy};
ghost use Rattle.walks.specs.Begun.{to_free, to_pair, outward};
ghost use Rattle.rules.specs.Timer.{timed};
ghost use Rattle.outcomes.specs.Deciding.{held_at_most, acknowledged};
ghost use Rattle.engine.specs.declared.Told.TheVariants.{Answered};
ghost use Rattle.engine.specs.Planning.{resting, leaving_plan, post_plan, going_of, emit_plan, respond_plan, accepted_plan, plan_of};

use crate::refusing::refusal;
use crate::{Ask, Plan, Scan, Told};
use message::{Card, State, mtu, psns_for, slots_for, tidied};
use outcomes::{Found, acknowledged, responded_to, timed};
use psn::Psn;
use refusal::Refusal;
use rules::{Answer, Clock, Ends, Line, Outcome, Packet, Pair, Post, Settings, Standing};
use walks::{Emitting, Joining, Leaving, Moving};

// "Opening sets U, X, H and N to the first PSN, counts to their settings, elapsed and hold to 0."
fn opened(s: Settings, first: u32) -> Standing
    ensures { result ≡ opened s first }
{
    Standing {
        state: State::Ready as u32,
        settings: s,
        line: Line {
            u: first,
            x: first,
            h: first,
            n: first,
        },
        clock: Clock {
            retries: s.retry,
            rnrs: s.rnr,
            elapsed: 0,
            hold: 0,
        },
    }
}

// "A post stores and raises N."
fn raised(m: Post, t: Standing) -> Standing
    ensures { result ≡ raised m (tidy t) }
{
    let l = t.line;
    let n = Psn::plus(l.n, psns_for(t.settings, m));
    Standing {
        line: Line { n, ..l },
        ..tidied(t)
    }
}

// "the smaller of the budget and the records ending after X; a held pair writes 0"
fn going_of(budget: u32, t: Standing, f: Option<Found>) -> u32
    ensures { result ≡ going_of budget (tidy t) f }
{
    let waiting = f.map_or(0, |f| f.left);
    if 0 < t.clock.hold {
        0
    } else {
        budget.min(waiting)
    }
}

// The payload's place of a response that was taken; else 0, 01's answer of no place, which the rules' `place_if` has so.
fn place_if(answer: Answer, place: u64) -> u64
    ensures { result ≡ place_if answer place }
{
    if answer == Answer::Done { place } else { 0 }
}

fn place_of(s: Settings, r: u32, p: Packet) -> u64
    ensures { result ≡ place_of (capped s) r p }
{
    u64::from(p.offset) + u64::from(Psn::distance(p.psn, r)) * u64::from(mtu(s))
}

// The two records that a call may change: the pair's and the free queue's ends.
#[derive(Clone, Copy)]
struct Records {
    pair: Pair,
    ends: Ends,
}

impl Records {
    // So many slots of the pair's front, to the free queue's end.
    fn to_free(self, released: u32, flushed: u32) -> Leaving
        requires { released + flushed < 2 ^ 32 }
        ensures { result ≡ to_free self.pair self.ends released flushed }
    {
        let moving = Moving {
            left: released + flushed,
            at: self.pair.queue.first,
            first: self.ends.first,
            last: self.ends.last,
        };
        Leaving {
            moving,
            released,
            messages: 0,
        }
    }

    // So many slots of the free queue's front, to the pair's end.
    fn to_pair(self, k: u32, post: Post) -> Joining
        ensures { result ≡ to_pair self.pair self.ends k post }
    {
        let t = self.pair.standing;
        let moving = Moving {
            left: k,
            at: self.ends.first,
            first: self.pair.queue.first,
            last: self.pair.queue.last,
        };
        Joining {
            moving,
            total: k,
            settings: t.settings,
            post,
            first: t.line.n,
        }
    }

    // So many packets, from the one found on.
    fn outward(self, k: u32, at: u32) -> Emitting
        ensures { result ≡ outward self.pair k at }
    {
        let standing = self.pair.standing;
        Emitting {
            left: k,
            total: k,
            at,
            x: standing.line.x,
            standing,
        }
    }

    // No walk has a step.
    fn resting(self, told: Result<Told, Refusal>, standing: Standing) -> Plan
        ensures { result ≡ resting self.pair self.ends told standing }
    {
        Plan {
            told,
            standing,
            leaving: self.to_free(0, 0),
            joining: self.to_pair(0, Post::default()),
            emitting: self.outward(0, 0),
        }
    }

    // No slot moves. Place 0: 01's answer of no place, which the rules' `place_if` has so.
    fn answering(self, answer: Answer, standing: Standing) -> Plan
        ensures { result ≡ resting self.pair self.ends (Ok (Answered answer 0)) standing }
    {
        self.resting(Ok(Told::Answered { answer, place: 0 }), standing)
    }

    fn leaving_plan(self, o: Outcome, place: u64) -> Plan
        requires { o.released + o.flushed < 2 ^ 32 }
        ensures { result ≡ leaving_plan self.pair self.ends o place }
    {
        let told = Told::Answered {
            answer: o.answer,
            place: (place % 4_294_967_296) as u32,
        };
        Plan {
            leaving: self.to_free(o.released, o.flushed),
            ..self.resting(Ok(told), o.standing)
        }
    }

    fn post_plan(self, m: Post) -> Plan
        ensures { result ≡ post_plan self.pair self.ends m }
    {
        let t = self.pair.standing;
        Plan {
            joining: self.to_pair(slots_for(t.settings, m), m),
            ..self.resting(Ok(Told::First(t.line.n)), raised(m, t))
        }
    }

    fn emit_plan(self, budget: u32, f: Option<Found>) -> Plan
        ensures { result ≡ emit_plan self.pair self.ends budget f }
    {
        let t = self.pair.standing;
        // A number and no Option: the walks write these links back.
        let slot = f.map_or(Card::NONE, |f| f.slot);
        Plan {
            emitting: self.outward(going_of(budget, t, f), slot),
            ..self.resting(Ok(Told::Count), tidied(t))
        }
    }

    // No pair holds more slots than there are.
    fn held(self) -> u32
        ensures { (result ≡ held_at_most self.pair) × (result ≤ 256) }
    {
        self.pair.queue.held.min(Card::SLOTS)
    }

    #[tactic(auto, using(outcomes::proofs::Few::acknowledged_few))]
    fn acknowledge_plan(self, r: u32, syndrome: u32, f: Option<Found>) -> Plan
        ensures { result ≡ leaving_plan self.pair self.ends (acknowledged r syndrome (held_at_most self.pair) f (tidy self.pair.standing)) 0 }
    {
        let o = acknowledged(r, syndrome, self.held(), f, self.pair.standing);
        self.leaving_plan(o, 0)
    }

    // A response whose R is in no read is refused with 9, or is outside the open range and so dropped.
    fn respond_plan(self, r: u32, f: Option<Found>, read: Option<Found>) -> Plan
        ensures { result ≡ respond_plan self.pair self.ends r f read }
    {
        let t = self.pair.standing;
        let Some(read) = read else {
            return self.answering(Answer::Dropped, tidied(t));
        };
        let o = responded_to(r, self.pair.queue.held, f, read.packet, t);
        let place = place_if(o.answer, place_of(t.settings, r, read.packet));
        self.leaving_plan(o, place)
    }

    fn tick_plan(self, elapsed: u64) -> Plan
        ensures { result ≡ leaving_plan self.pair self.ends (timed elapsed (held_at_most self.pair) (tidy self.pair.standing)) 0 }
    {
        let o = timed(elapsed, self.held(), self.pair.standing);
        self.leaving_plan(o, 0)
    }

    // "a closed record's other fields are 0"
    fn close_plan(self) -> Plan
        ensures { result ≡ leaving_plan self.pair self.ends (closing_all (held_at_most self.pair)) 0 }
    {
        let o = Outcome {
            answer: Answer::Done,
            released: 0,
            flushed: self.held(),
            standing: Standing::default(),
        };
        self.leaving_plan(o, 0)
    }

    fn accepted_plan(self, c: Scan, ask: Ask) -> Plan
        ensures { result ≡ accepted_plan self.pair self.ends c ask }
    {
        let f = c.main.found;
        match ask {
            Ask::Open { settings, first } => {
                self.answering(Answer::Done, opened(settings, first))
            }
            Ask::Post { post } => self.post_plan(post),
            Ask::Emit { budget } => self.emit_plan(budget, f),
            Ask::Acknowledge { psn, syndrome } => self.acknowledge_plan(psn, syndrome, f),
            Ask::Respond { psn, .. } => self.respond_plan(psn, f, c.read.found),
            Ask::Tick { elapsed } => self.tick_plan(elapsed),
            Ask::Close => self.close_plan(),
        }
    }
}

#[tactic(auto, unfolding(crate::specs::Planning::plan_of))]
pub fn plan_of(v: Option<u32>, at: u32, p: Pair, e: Ends, c: Scan, ask: Ask, room: usize) -> Plan
    ensures { result ≡ plan_of v at p e c ask room }
{
    let now = Records { pair: p, ends: e };
    match refusal(v, at, p, c, ask, room) {
        None => now.accepted_plan(c, ask),
        Some(r) => now.resting(Err(r), p.standing),
    }
}
