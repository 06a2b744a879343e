// The text of a call's answer.
ghost use Rattle.std.specs.Prelude.{◌≡◌, length};
ghost use Rattle.text.specs.Out.{Puts};
ghost use Rattle.answers.specs.Replied.{word_text, place_text, answered_text, emitted_text, reply_text};

use crate::buffers::{Completions, Records, put_items};
use crate::print::{put_line, put_refused};
use refusal::Refusal;
use rules::{Answer, Reply};
use text::{Ask, Out};

// A word of document 01. Not by Display: of `write!` a caller knows the bytes only where all of them had room.
fn word(answer: Answer) -> &'static [u8]
    ensures { result.now ≡ word_text answer }
{
    match answer {
        Answer::Dropped => b"dropped",
        Answer::Done => b"done",
        Answer::Resending => b"resending",
        Answer::Held => b"held",
        Answer::Resumed => b"resumed",
        Answer::Idle => b"idle",
        Answer::Ended => b"ended",
    }
}

// A payload's place, behind the "done" of a response.
fn put_place(out: &mut Out, what: Ask, answer: Answer, place: u32)
    ensures same { out.new.bytes.ghost_name ≡ out.old.bytes.ghost_name }
    ensures long { length out.new.bytes.now ≡ length out.old.bytes.now }
    ensures after { Puts out.old.bytes.now out.old.at (place_text what answer place) out.new.bytes.now out.new.at }
{
    if let (Ask::Response, Answer::Done) = (what, answer) {
        out.put(b"@");
        out.put_decimal(u64::from(place));
    }
}

fn put_answered(
    out: &mut Out,
    numbers: &[u32],
    what: Ask,
    answer: Answer,
    messages: u32,
    place: u32,
)
    ensures same { out.new.bytes.ghost_name ≡ out.old.bytes.ghost_name }
    ensures long { length out.new.bytes.now ≡ length out.old.bytes.now }
    ensures after { Puts out.old.bytes.now out.old.at (answered_text numbers.now what answer messages place) out.new.bytes.now out.new.at }
{
    out.put(word(answer));
    put_place(out, what, answer, place);
    put_items(out, &Completions(numbers), messages);
    out.put(b"\n");
}

fn put_emitted(out: &mut Out, bytes: &[u8], packets: u32)
    ensures same { out.new.bytes.ghost_name ≡ out.old.bytes.ghost_name }
    ensures long { length out.new.bytes.now ≡ length out.old.bytes.now }
    ensures after { Puts out.old.bytes.now out.old.at (emitted_text bytes.now packets) out.new.bytes.now out.new.at }
{
    put_line(out, b"emitted", &[u64::from(packets)]);
    put_items(out, &Records(bytes), packets);
}

// The answer to what a line asks of a pair, with what the call left in the buffers.
pub fn put_reply(
    out: &mut Out,
    numbers: &[u32],
    bytes: &[u8],
    what: Ask,
    reply: Result<Reply, Refusal>,
)
    ensures same { out.new.bytes.ghost_name ≡ out.old.bytes.ghost_name }
    ensures long { length out.new.bytes.now ≡ length out.old.bytes.now }
    ensures after { Puts out.old.bytes.now out.old.at (reply_text numbers.now bytes.now what reply) out.new.bytes.now out.new.at }
{
    match reply {
        Ok(
            Reply::Answered {
                answer,
                messages,
                place,
            },
        ) => put_answered(out, numbers, what, answer, messages, place),
        Ok(Reply::First(psn)) => put_line(out, b"first", &[u64::from(psn)]),
        Ok(Reply::Count(packets)) => put_emitted(out, bytes, packets),
        Err(r) => put_refused(out, r),
    }
}
