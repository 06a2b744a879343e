// The calls by their own names. The three tables stay three arguments, as C lends them: a struct of three `&mut`s would have each call promise in three clauses more that they are the same after.
// Each asks the one body, and lends it an empty row in place of a buffer that the call does not use.
ghost use Rattle.std.specs.Prelude.{◌≡◌};
ghost use Rattle.rules.specs.Card.{small};
ghost use Rattle.rules.specs.Requests.{opening, posting, emitting, acknowledging, responding, ticking, closing, starting, on};
ghost use Rattle.rules.specs.Passes.Tables.{passes};
ghost use Rattle.card.specs.Lent.{lent, Answers, Fills};
ghost use Rattle.card.specs.Inner.{with_numbers, Leaves};

use crate::Limits;
use crate::auditing::audit_tables;
use crate::body::call;
use crate::starting::{fill, start_of};
use engine::Ask;
use refusal::Refusal;
use rules::{Ends, Pair, Post, Reply, Settings, Slot};

// Whether the tables pass.
pub fn audit(pairs: &[Pair], ends: &Ends, slots: &[Slot]) -> bool
    ensures { result ≡ passes small (lent pairs.now ends.now slots.now) }
{
    audit_tables(pairs, slots, *ends).is_some()
}

// All pairs closed, all slots free: from any contents.
pub fn fresh_start(
    pairs: &mut [Pair],
    ends: &mut Ends,
    slots: &mut [Slot],
) -> Result<Reply, Refusal>
    ensures { Answers starting (lent pairs.old ends.old slots.old)
        result pairs.new ends.new slots.new }
{
    let s = start_of(pairs.len(), slots.len(), *ends);
    fill(pairs, s.pairs);
    fill(slots, s.slots);
    *ends = s.ends;
    s.reply
}

// As many numbers as are lent, and no bytes.
fn call_with_numbers(
    pairs: &mut [Pair],
    ends: &mut Ends,
    slots: &mut [Slot],
    done: &mut [u32],
    pair: u32,
    ask: Ask,
) -> Result<Reply, Refusal>
    ensures { Leaves (with_numbers pair ask (lent pairs.old ends.old slots.old) done.old)
        result pairs.new ends.new slots.new done.new }
{
    let limits = Limits {
        numbers: done.len(),
        bytes: 0,
    };
    let mut out = [0u8; 0];
    call(pairs, ends, slots, done, &mut out, limits, pair, ask)
}

pub fn open_pair(
    pairs: &mut [Pair],
    ends: &mut Ends,
    slots: &mut [Slot],
    pair: u32,
    settings: Settings,
    first: u32,
) -> Result<Reply, Refusal>
    ensures { Answers (on pair (opening settings first)) (lent pairs.old ends.old slots.old)
        result pairs.new ends.new slots.new }
{
    let ask = Ask::Open { settings, first };
    let mut done = [0u32; 0];
    call_with_numbers(pairs, ends, slots, &mut done, pair, ask)
}

pub fn post_message(
    pairs: &mut [Pair],
    ends: &mut Ends,
    slots: &mut [Slot],
    pair: u32,
    post: Post,
) -> Result<Reply, Refusal>
    ensures { Answers (on pair (posting post)) (lent pairs.old ends.old slots.old)
        result pairs.new ends.new slots.new }
{
    let ask = Ask::Post { post };
    let mut done = [0u32; 0];
    call_with_numbers(pairs, ends, slots, &mut done, pair, ask)
}

// Records of 48 bytes, of packets from X on.
pub fn emit_packets(
    pairs: &mut [Pair],
    ends: &mut Ends,
    slots: &mut [Slot],
    out: &mut [u8],
    pair: u32,
    budget: u32,
) -> Result<Reply, Refusal>
    ensures { Fills (on pair (emitting budget out.old)) (lent pairs.old ends.old slots.old)
        result pairs.new ends.new slots.new out.new }
{
    let ask = Ask::Emit { budget };
    let limits = Limits {
        numbers: 0,
        bytes: out.len(),
    };
    let mut done = [0u32; 0];
    call(pairs, ends, slots, &mut done, out, limits, pair, ask)
}

// An ACK, a NAK or an RNR for a PSN.
pub fn acknowledge(
    pairs: &mut [Pair],
    ends: &mut Ends,
    slots: &mut [Slot],
    done: &mut [u32],
    pair: u32,
    psn: u32,
    syndrome: u32,
) -> Result<Reply, Refusal>
    ensures { Fills (on pair (acknowledging psn syndrome done.old)) (lent pairs.old ends.old slots.old)
        result pairs.new ends.new slots.new done.new }
{
    let ask = Ask::Acknowledge { psn, syndrome };
    call_with_numbers(pairs, ends, slots, done, pair, ask)
}

pub fn read_response(
    pairs: &mut [Pair],
    ends: &mut Ends,
    slots: &mut [Slot],
    done: &mut [u32],
    pair: u32,
    psn: u32,
    opcode: u32,
    length: u32,
) -> Result<Reply, Refusal>
    ensures { Fills (on pair (responding psn opcode length done.old)) (lent pairs.old ends.old slots.old)
        result pairs.new ends.new slots.new done.new }
{
    let ask = Ask::Respond {
        psn,
        opcode,
        length,
    };
    call_with_numbers(pairs, ends, slots, done, pair, ask)
}

// So many ns have passed.
pub fn timer_step(
    pairs: &mut [Pair],
    ends: &mut Ends,
    slots: &mut [Slot],
    done: &mut [u32],
    pair: u32,
    elapsed: u64,
) -> Result<Reply, Refusal>
    ensures { Fills (on pair (ticking elapsed done.old)) (lent pairs.old ends.old slots.old)
        result pairs.new ends.new slots.new done.new }
{
    call_with_numbers(pairs, ends, slots, done, pair, Ask::Tick { elapsed })
}

pub fn close_pair(
    pairs: &mut [Pair],
    ends: &mut Ends,
    slots: &mut [Slot],
    done: &mut [u32],
    pair: u32,
) -> Result<Reply, Refusal>
    ensures { Fills (on pair (closing done.old)) (lent pairs.old ends.old slots.old)
        result pairs.new ends.new slots.new done.new }
{
    call_with_numbers(pairs, ends, slots, done, pair, Ask::Close)
}
