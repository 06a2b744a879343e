// What `show` and `free` write of a pair and of a slot.
ghost use Rattle.std.specs.Prelude.{◌≡◌, length};
ghost use Rattle.text.specs.Out.{Puts};
ghost use Rattle.answers.specs.Said.{numeral};
ghost use Rattle.answers.specs.Shown.{shown_numbers, state_text, standing_text, part, member_text};

use crate::print::{put_number, put_numbers};
use message::State;
use rules::{Pair, Slot};
use text::Out;

fn shown_numbers(p: Pair) -> [u64; 9]
    ensures { result ≡ shown_numbers p }
{
    let l = p.standing.line;
    let c = p.standing.clock;
    [
        u64::from(l.u),
        u64::from(l.x),
        u64::from(l.h),
        u64::from(l.n),
        u64::from(p.queue.held),
        u64::from(c.retries),
        u64::from(c.rnrs),
        c.elapsed,
        c.hold,
    ]
}

// A state that is none of the three is shown as closed.
fn put_state(out: &mut Out, p: Pair)
    ensures same { out.new.bytes.ghost_name ≡ out.old.bytes.ghost_name }
    ensures long { length out.new.bytes.now ≡ length out.old.bytes.now }
    ensures after { Puts out.old.bytes.now out.old.at (state_text p) out.new.bytes.now out.new.at }
{
    match State::try_from(p.standing.state) {
        Ok(State::Ready) => {
            out.put(b" ready");
            put_numbers(out, &shown_numbers(p));
        }
        Ok(State::Ended) => {
            out.put(b" ended");
            put_numbers(out, &shown_numbers(p));
        }
        _ => out.put(b" closed"),
    }
}

// A pair as far as its packets, with no newline.
pub fn put_standing(out: &mut Out, pair: u32, p: Pair)
    ensures same { out.new.bytes.ghost_name ≡ out.old.bytes.ghost_name }
    ensures long { length out.new.bytes.now ≡ length out.old.bytes.now }
    ensures after { Puts out.old.bytes.now out.old.at (standing_text pair p) out.new.bytes.now out.new.at }
{
    out.put(b"pair");
    put_number(out, u64::from(pair));
    put_state(out, p);
}

fn put_part(out: &mut Out, n: u32)
    ensures same { out.new.bytes.ghost_name ≡ out.old.bytes.ghost_name }
    ensures long { length out.new.bytes.now ≡ length out.old.bytes.now }
    ensures after { Puts out.old.bytes.now out.old.at (part n) out.new.bytes.now out.new.at }
{
    out.put(b"/");
    out.put_decimal(u64::from(n));
}

// A packet that a pair holds, with a space before it.
pub fn put_member(out: &mut Out, slot: u32, s: Slot)
    ensures same { out.new.bytes.ghost_name ≡ out.old.bytes.ghost_name }
    ensures long { length out.new.bytes.now ≡ length out.old.bytes.now }
    ensures after { Puts out.old.bytes.now out.old.at (member_text slot s) out.new.bytes.now out.new.at }
{
    put_number(out, u64::from(slot));
    put_part(out, s.packet.psn);
    put_part(out, s.packet.ticket);
    put_part(out, s.packet.offset);
    put_part(out, s.packet.length);
}

// A slot's number with a space before it.
pub fn put_slot(out: &mut Out, slot: u32)
    ensures same { out.new.bytes.ghost_name ≡ out.old.bytes.ghost_name }
    ensures long { length out.new.bytes.now ≡ length out.old.bytes.now }
    ensures after { Puts out.old.bytes.now out.old.at (numeral slot) out.new.bytes.now out.new.at }
{
    put_number(out, u64::from(slot));
}
