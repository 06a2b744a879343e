// What a line answers that asks nothing of the tables.
ghost use Rattle.std.specs.Prelude.{◌≡◌, length};
ghost use Rattle.text.specs.Out.{Puts};
ghost use Rattle.text.specs.Text.{bytes};
ghost use Rattle.answers.specs.Said.{unread_text};
ghost use Rattle.answers.specs.Plain.{text_of};

use crate::header::{answer_read, answer_write};
use crate::print::put_line;
use text::{Ask, Out, parse};

pub fn put_unread(out: &mut Out, number: u64)
    ensures same { out.new.bytes.ghost_name ≡ out.old.bytes.ghost_name }
    ensures long { length out.new.bytes.now ≡ length out.old.bytes.now }
    ensures after { Puts out.old.bytes.now out.old.at (unread_text number) out.new.bytes.now out.new.at }
{
    put_line(out, b"unread", &[number]);
}

// Nothing is put where the line asks something of the tables.
#[tactic(auto, using(crate::proofs::Rest::no_text, text::proofs::Frames::read_hex, text::proofs::Frames::read_fits), unfolding(text::specs::Out::put_all, crate::specs::Plain::text_of))]
pub fn put_text(out: &mut Out, line: &[u8], number: u64)
    ensures same { out.new.bytes.ghost_name ≡ out.old.bytes.ghost_name }
    ensures long { length out.new.bytes.now ≡ length out.old.bytes.now }
    ensures after { Puts out.old.bytes.now out.old.at (text_of line.now number) out.new.bytes.now out.new.at }
{
    let parsed = parse(line);
    match parsed.ask {
        Ask::Unread => put_unread(out, number),
        Ask::Write => answer_write(out, &parsed.args),
        Ask::Read => answer_read(out, line),
        _ => {}
    }
}

// The end of a line that was put piece by piece.
pub fn put_end(out: &mut Out)
    ensures same { out.new.bytes.ghost_name ≡ out.old.bytes.ghost_name }
    ensures long { length out.new.bytes.now ≡ length out.old.bytes.now }
    ensures after { Puts out.old.bytes.now out.old.at (bytes "\n") out.new.bytes.now out.new.at }
{
    out.put(b"\n");
}
