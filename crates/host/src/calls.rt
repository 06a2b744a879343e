// The calls, with answers and posts as flat records of numbers. One function for each of C's nine, with C's arguments: C has no generics.
ghost use Rattle.std.specs.Prelude.{◌≡◌};
ghost use Rattle.rules.specs.Card.{small};
ghost use Rattle.rules.specs.Requests.{opening, posting, emitting, acknowledging, responding, ticking, closing, starting, on};
ghost use Rattle.rules.specs.Passes.Tables.{passes};
ghost use Rattle.card.specs.Lent.{lent};
ghost use Rattle.host.specs.Flat.{post_of, number_if, Says, Fills};

use crate::flat::number_if;
use crate::{Posted, Said};
use rules::{Ends, Pair, Post, Settings, Slot};

pub fn kamusseori_audit(pairs: &mut [Pair], ends: &mut Ends, slots: &mut [Slot]) -> u32
    ensures { (result ≡ number_if (passes small (lent pairs.old ends.old slots.old)))
        × ((pairs.new ≡ pairs.old) × ((ends.new ≡ ends.old) × (slots.new ≡ slots.old))) }
{
    number_if(card::audit(pairs, ends, slots))
}

pub fn kamusseori_fresh(pairs: &mut [Pair], ends: &mut Ends, slots: &mut [Slot]) -> Said
    ensures { Says starting (lent pairs.old ends.old slots.old)
        result pairs.new ends.new slots.new }
{
    Said::from(card::fresh_start(pairs, ends, slots))
}

pub fn kamusseori_open(
    pairs: &mut [Pair],
    ends: &mut Ends,
    slots: &mut [Slot],
    pair: u32,
    settings: Settings,
    first: u32,
) -> Said
    ensures { Says (on pair (opening settings first)) (lent pairs.old ends.old slots.old)
        result pairs.new ends.new slots.new }
{
    Said::from(card::open_pair(pairs, ends, slots, pair, settings, first))
}

pub fn kamusseori_post(
    pairs: &mut [Pair],
    ends: &mut Ends,
    slots: &mut [Slot],
    pair: u32,
    post: Posted,
) -> Said
    ensures { Says (on pair (posting (post_of post))) (lent pairs.old ends.old slots.old)
        result pairs.new ends.new slots.new }
{
    Said::from(card::post_message(pairs, ends, slots, pair, Post::from(post)))
}

pub fn kamusseori_emit(
    pairs: &mut [Pair],
    ends: &mut Ends,
    slots: &mut [Slot],
    out: &mut [u8],
    pair: u32,
    budget: u32,
) -> Said
    ensures { Fills (on pair (emitting budget out.old)) (lent pairs.old ends.old slots.old)
        result pairs.new ends.new slots.new out.new }
{
    Said::from(card::emit_packets(pairs, ends, slots, out, pair, budget))
}

pub fn kamusseori_acknowledge(
    pairs: &mut [Pair],
    ends: &mut Ends,
    slots: &mut [Slot],
    done: &mut [u32],
    pair: u32,
    psn: u32,
    syndrome: u32,
) -> Said
    ensures { Fills (on pair (acknowledging psn syndrome done.old)) (lent pairs.old ends.old slots.old)
        result pairs.new ends.new slots.new done.new }
{
    Said::from(card::acknowledge(pairs, ends, slots, done, pair, psn, syndrome))
}

pub fn kamusseori_response(
    pairs: &mut [Pair],
    ends: &mut Ends,
    slots: &mut [Slot],
    done: &mut [u32],
    pair: u32,
    psn: u32,
    opcode: u32,
    length: u32,
) -> Said
    ensures { Fills (on pair (responding psn opcode length done.old)) (lent pairs.old ends.old slots.old)
        result pairs.new ends.new slots.new done.new }
{
    Said::from(card::read_response(pairs, ends, slots, done, pair, psn, opcode, length))
}

pub fn kamusseori_timer(
    pairs: &mut [Pair],
    ends: &mut Ends,
    slots: &mut [Slot],
    done: &mut [u32],
    pair: u32,
    elapsed: u64,
) -> Said
    ensures { Fills (on pair (ticking elapsed done.old)) (lent pairs.old ends.old slots.old)
        result pairs.new ends.new slots.new done.new }
{
    Said::from(card::timer_step(pairs, ends, slots, done, pair, elapsed))
}

pub fn kamusseori_close(
    pairs: &mut [Pair],
    ends: &mut Ends,
    slots: &mut [Slot],
    done: &mut [u32],
    pair: u32,
) -> Said
    ensures { Fills (on pair (closing done.old)) (lent pairs.old ends.old slots.old)
        result pairs.new ends.new slots.new done.new }
{
    Said::from(card::close_pair(pairs, ends, slots, done, pair))
}
