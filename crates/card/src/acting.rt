// The three walks that act: slots leave a pair for the free queue's end, slots of its front join a pair, packets go out.
// Three loops of one shape: what is lent differs (slots and numbers; slots; slots and bytes). What a closure writes to what it captures, its caller's proof does not learn.
ghost use Rattle.std.specs.Prelude.{◌≡◌};
ghost use Rattle.walks.specs.Acting.{Left, leave_turn, leave as left, Joined, join_turn, join as joined, Emitted, emit_turn, emit as emitted};

use crate::places::{relink, slot_at};
use message::Card;
use rules::Slot;
use walks::{
    Emitting, Joining, Leaving, complete, emit_record, emit_step, join_slot, join_step, leave_step,
    put_if,
};

// The free queue's last slot leads to it, and it leads nowhere.
fn leave_turn(slots: &mut [Slot], done: &mut [u32], w: Leaving) -> Leaving
    ensures { (result ≡ (leave_turn (record { work = w; slots = slots.old; done = done.old })).work)
        × ((slots.new ≡ (leave_turn (record { work = w; slots = slots.old; done = done.old })).slots)
        × (done.new ≡ (leave_turn (record { work = w; slots = slots.old; done = done.old })).done)) }
{
    let m = w.moving;
    let at = m.at as usize;
    let s = slot_at(slots, at);
    complete(done, w, s);
    relink(slots, m.last as usize, m.at);
    relink(slots, at, Card::NONE);
    leave_step(w, s)
}

pub(crate) fn leave(slots: &mut [Slot], done: &mut [u32], start: Leaving) -> Leaving
    ensures { (result ≡ (left (record { work = start; slots = slots.old; done = done.old })).work)
        × ((slots.new ≡ (left (record { work = start; slots = slots.old; done = done.old })).slots)
        × (done.new ≡ (left (record { work = start; slots = slots.old; done = done.old })).done)) }
{
    let mut w = start;
    // `while`: how many are left is in what is carried, and a `for` would count it twice.
    while w.moving.left > 0 {
        w = leave_turn(slots, done, w);
    }
    w
}

// The pair's last slot leads to it, and it holds the next packet.
fn join_turn(slots: &mut [Slot], w: Joining) -> Joining
    ensures { (result ≡ (join_turn (record { work = w; slots = slots.old })).work) × (slots.new ≡ (join_turn (record { work = w; slots = slots.old })).slots) }
{
    let m = w.moving;
    let at = m.at as usize;
    let s = slot_at(slots, at);
    relink(slots, m.last as usize, m.at);
    put_if(slots, at, join_slot(w));
    join_step(w, s)
}

pub(crate) fn join(slots: &mut [Slot], start: Joining) -> Joining
    ensures { (result ≡ (joined (record { work = start; slots = slots.old })).work) × (slots.new ≡ (joined (record { work = start; slots = slots.old })).slots) }
{
    let mut w = start;
    // `while`: how many are left is in what is carried, and a `for` would count it twice.
    while w.moving.left > 0 {
        w = join_turn(slots, w);
    }
    w
}

fn emit_turn(slots: &[Slot], out: &mut [u8], w: Emitting) -> Emitting
    ensures { (result ≡ (emit_turn slots.now (record { work = w; out = out.old })).work) × (out.new ≡ (emit_turn slots.now (record { work = w; out = out.old })).out) }
{
    let s = slot_at(slots, w.at as usize);
    emit_record(out, w, s);
    emit_step(w, s)
}

pub(crate) fn emit(slots: &[Slot], out: &mut [u8], start: Emitting) -> Emitting
    ensures { (result ≡ (emitted slots.now (record { work = start; out = out.old })).work) × (out.new ≡ (emitted slots.now (record { work = start; out = out.old })).out) }
{
    let mut w = start;
    // `while`: how many are left is in what is carried, and a `for` would count it twice.
    while w.left > 0 {
        w = emit_turn(slots, out, w);
    }
    w
}
