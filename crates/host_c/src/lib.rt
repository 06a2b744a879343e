// The archive for a driver in C: host's calls as C's functions, each with host's clauses, one for each name that the header has. A slice is a pointer and a count in C.
#![tactic(auto)]

ghost use Rattle.std.specs.Prelude.{◌≡◌};
ghost use Rattle.rules.specs.Card.{small};
ghost use Rattle.rules.specs.Requests.{opening, posting, emitting, acknowledging, responding, ticking, closing, starting, on};
ghost use Rattle.rules.specs.Passes.Tables.{passes};
ghost use Rattle.card.specs.Lent.{lent};
ghost use Rattle.host.specs.Flat.{post_of, number_if, Says, Fills};

use host::{Posted, Said};
use rules::{Ends, Pair, Settings, Slot};

#[unsafe(no_mangle)]
pub extern "C" fn kamusseori_audit(pairs: &mut [Pair], ends: &mut Ends, slots: &mut [Slot]) -> u32
    ensures { (result ≡ number_if (passes small (lent pairs.old ends.old slots.old)))
        × ((pairs.new ≡ pairs.old) × ((ends.new ≡ ends.old) × (slots.new ≡ slots.old))) }
{
    host::kamusseori_audit(pairs, ends, slots)
}

#[unsafe(no_mangle)]
pub extern "C" fn kamusseori_fresh(pairs: &mut [Pair], ends: &mut Ends, slots: &mut [Slot]) -> Said
    ensures { Says starting (lent pairs.old ends.old slots.old)
        result pairs.new ends.new slots.new }
{
    host::kamusseori_fresh(pairs, ends, slots)
}

#[unsafe(no_mangle)]
pub extern "C" fn kamusseori_open(
    pairs: &mut [Pair],
    ends: &mut Ends,
    slots: &mut [Slot],
    pair: u32,
    settings: Settings,
    first: u32,
) -> Said
    ensures { Says (on pair (opening settings first)) (lent pairs.old ends.old slots.old)
        result pairs.new ends.new slots.new }
{
    host::kamusseori_open(pairs, ends, slots, pair, settings, first)
}

#[unsafe(no_mangle)]
pub extern "C" fn kamusseori_post(
    pairs: &mut [Pair],
    ends: &mut Ends,
    slots: &mut [Slot],
    pair: u32,
    post: Posted,
) -> Said
    ensures { Says (on pair (posting (post_of post))) (lent pairs.old ends.old slots.old)
        result pairs.new ends.new slots.new }
{
    host::kamusseori_post(pairs, ends, slots, pair, post)
}

#[unsafe(no_mangle)]
pub extern "C" fn kamusseori_emit(
    pairs: &mut [Pair],
    ends: &mut Ends,
    slots: &mut [Slot],
    out: &mut [u8],
    pair: u32,
    budget: u32,
) -> Said
    ensures { Fills (on pair (emitting budget out.old)) (lent pairs.old ends.old slots.old)
        result pairs.new ends.new slots.new out.new }
{
    host::kamusseori_emit(pairs, ends, slots, out, pair, budget)
}

#[unsafe(no_mangle)]
pub extern "C" fn kamusseori_acknowledge(
    pairs: &mut [Pair],
    ends: &mut Ends,
    slots: &mut [Slot],
    done: &mut [u32],
    pair: u32,
    psn: u32,
    syndrome: u32,
) -> Said
    ensures { Fills (on pair (acknowledging psn syndrome done.old)) (lent pairs.old ends.old slots.old)
        result pairs.new ends.new slots.new done.new }
{
    host::kamusseori_acknowledge(pairs, ends, slots, done, pair, psn, syndrome)
}

#[unsafe(no_mangle)]
pub extern "C" fn kamusseori_response(
    pairs: &mut [Pair],
    ends: &mut Ends,
    slots: &mut [Slot],
    done: &mut [u32],
    pair: u32,
    psn: u32,
    opcode: u32,
    length: u32,
) -> Said
    ensures { Fills (on pair (responding psn opcode length done.old)) (lent pairs.old ends.old slots.old)
        result pairs.new ends.new slots.new done.new }
{
    host::kamusseori_response(pairs, ends, slots, done, pair, psn, opcode, length)
}

#[unsafe(no_mangle)]
pub extern "C" fn kamusseori_timer(
    pairs: &mut [Pair],
    ends: &mut Ends,
    slots: &mut [Slot],
    done: &mut [u32],
    pair: u32,
    elapsed: u64,
) -> Said
    ensures { Fills (on pair (ticking elapsed done.old)) (lent pairs.old ends.old slots.old)
        result pairs.new ends.new slots.new done.new }
{
    host::kamusseori_timer(pairs, ends, slots, done, pair, elapsed)
}

#[unsafe(no_mangle)]
pub extern "C" fn kamusseori_close(
    pairs: &mut [Pair],
    ends: &mut Ends,
    slots: &mut [Slot],
    done: &mut [u32],
    pair: u32,
) -> Said
    ensures { Fills (on pair (closing done.old)) (lent pairs.old ends.old slots.old)
        result pairs.new ends.new slots.new done.new }
{
    host::kamusseori_close(pairs, ends, slots, done, pair)
}
