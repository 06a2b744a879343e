// Words and numbers of an answer.
ghost use Rattle.std.specs.Prelude.{◌≡◌, length};
ghost use Rattle.refusal.specs.Numbers.{number as Numbers·number};
ghost use Rattle.text.specs.Out.{Puts};
ghost use Rattle.answers.specs.Said.{numeral, spaced, refused_text, line};

use refusal::Refusal;
use text::Out;

pub(crate) fn put_number(out: &mut Out, number: u64)
    ensures same { out.new.bytes.ghost_name ≡ out.old.bytes.ghost_name }
    ensures long { length out.new.bytes.now ≡ length out.old.bytes.now }
    ensures after { Puts out.old.bytes.now out.old.at (numeral number) out.new.bytes.now out.new.at }
{
    out.put(b" ");
    out.put_decimal(number);
}

// Each number with a space before it.
pub(crate) fn put_numbers(out: &mut Out, numbers: &[u64])
    ensures same { out.new.bytes.ghost_name ≡ out.old.bytes.ghost_name }
    ensures long { length out.new.bytes.now ≡ length out.old.bytes.now }
    ensures after { Puts out.old.bytes.now out.old.at (spaced numbers.now) out.new.bytes.now out.new.at }
{
    for n in numbers {
        put_number(out, *n);
    }
}

// A word and its numbers.
pub(crate) fn put_line(out: &mut Out, word: &[u8], numbers: &[u64])
    ensures same { out.new.bytes.ghost_name ≡ out.old.bytes.ghost_name }
    ensures long { length out.new.bytes.now ≡ length out.old.bytes.now }
    ensures after { Puts out.old.bytes.now out.old.at (line word.now numbers.now) out.new.bytes.now out.new.at }
{
    out.put(word);
    put_numbers(out, numbers);
    out.put(b"\n");
}

pub(crate) fn put_refused(out: &mut Out, refusal: Refusal)
    ensures same { out.new.bytes.ghost_name ≡ out.old.bytes.ghost_name }
    ensures long { length out.new.bytes.now ≡ length out.old.bytes.now }
    ensures after { Puts out.old.bytes.now out.old.at (refused_text (Numbers·number refusal)) out.new.bytes.now out.new.at }
{
    put_line(out, b"refused", &[u64::from(refusal.number())]);
}
