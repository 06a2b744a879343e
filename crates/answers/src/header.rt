// What `write` and `read` answer.
ghost use Rattle.std.specs.Prelude.{◌≡◌, true, ◌≤◌, [], length, get_or, Ok};
ghost use Rattle.text.specs.Words.{words};
ghost use Rattle.text.specs.Hex.{is_hex, octets};
ghost use Rattle.wire.specs.Frame.{read_of};
ghost use Rattle.text.specs.Out.{Puts};
ghost use Rattle.answers.specs.Headers.{size_text, written_text, write_text, frame_text};

use crate::fields::{fields_of, header_of};
use crate::print::{put_line, put_numbers, put_refused};
use refusal::Refusal;
use text::{Out, argument, decode};
use wire::Written;

fn put_header(out: &mut Out, size: u32, header: &[u8])
    ensures same { out.new.bytes.ghost_name ≡ out.old.bytes.ghost_name }
    ensures long { length out.new.bytes.now ≡ length out.old.bytes.now }
    ensures after { Puts out.old.bytes.now out.old.at (size_text (Ok size) header.now) out.new.bytes.now out.new.at }
{
    out.put(b"header");
    put_numbers(out, &[u64::from(size)]);
    out.put(b" ");
    out.put_hex(header);
    out.put(b"\n");
}

fn put_written(out: &mut Out, w: Written)
    ensures same { out.new.bytes.ghost_name ≡ out.old.bytes.ghost_name }
    ensures long { length out.new.bytes.now ≡ length out.old.bytes.now }
    ensures after { Puts out.old.bytes.now out.old.at (written_text w) out.new.bytes.now out.new.at }
{
    match w.size {
        Ok(size) => put_header(out, size, &w.bytes),
        Err(r) => put_refused(out, r),
    }
}

// A number too wide for its argument is out of its range.
pub(crate) fn answer_write(out: &mut Out, args: &[u64; 11])
    ensures same { out.new.bytes.ghost_name ≡ out.old.bytes.ghost_name }
    ensures long { length out.new.bytes.now ≡ length out.old.bytes.now }
    ensures after { Puts out.old.bytes.now out.old.at (write_text args.now) out.new.bytes.now out.new.at }
{
    match header_of(args) {
        Some(h) => put_written(out, wire::write(h)),
        None => put_refused(out, Refusal::Range),
    }
}

fn put_read(out: &mut Out, frame: &[u8])
    ensures same { out.new.bytes.ghost_name ≡ out.old.bytes.ghost_name }
    ensures long { length out.new.bytes.now ≡ length out.old.bytes.now }
    ensures after { Puts out.old.bytes.now out.old.at (frame_text (read_of frame.now)) out.new.bytes.now out.new.at }
{
    match wire::read(frame) {
        Ok(f) => put_line(out, b"frame", &fields_of(f)),
        Err(r) => put_refused(out, r),
    }
}

// `read`: a line that is read has no HEX longer than the buffer.
pub(crate) fn answer_read(out: &mut Out, line: &[u8])
    requires line_value { is_hex (get_or (words line.now) 1 []) ≡ true }
    requires line_len_bound { length (octets (get_or (words line.now) 1 [])) ≤ 10000 }
    ensures same { out.new.bytes.ghost_name ≡ out.old.bytes.ghost_name }
    ensures long { length out.new.bytes.now ≡ length out.old.bytes.now }
    ensures after { Puts out.old.bytes.now out.old.at (frame_text (read_of (octets (get_or (words line.now) 1 [])))) out.new.bytes.now out.new.at }
{
    let mut frame = [0; 10000];
    if let Some(n) = decode(argument(line), &mut frame) {
        put_read(out, &frame[..n]);
    }
}
