// What a line asks.
ghost use Rattle.std.specs.Prelude.{◌≡◌, ◌≤◌, true, option_map, unwrap_or};
ghost use Rattle.text.specs.Words.{words};
ghost use Rattle.text.specs.Line.{parsed_of, alone as Line·alone, padded, numbers_of, called as Line·called, asked, table};
ghost use Rattle.text.specs.Inner.{few_args};
ghost use Rattle.text.specs.declared.Ask.TheVariants.{Unread};

use crate::calls::find_call;
use crate::decimal::number;
use crate::hex::is_hex;
use crate::words::next_word;
use crate::{Ask, Follow, Parsed, Row};

// A longer line is not read.
const LONGEST: usize = 20000;

fn alone(ask: Ask) -> Parsed
    ensures { result ≡ Line·alone ask }
{
    Parsed { ask, args: [0; 11] }
}

// The words of `line`, where they are `count` numbers.
fn numbers(line: &[u8], count: usize) -> Option<[u64; 11]>
    requires { count ≤ 11 }
    ensures { result ≡ option_map padded (numbers_of count (words line.now)) }
{
    let mut args = [0; 11];
    let mut rest = line;
    // By index: in a loop over `args.iter_mut().take(count)` the invariant has no name for what is in `args`.
    for i in 0..count {
        let (word, after) = next_word(rest)?;
        args[i] = number(word)?;
        rest = after;
    }
    match next_word(rest) {
        Some(_) => None,
        None => Some(args),
    }
}

// The call of a row, where what follows its word is as the row says.
fn called(line: &[u8], row: Row) -> Option<Parsed>
    requires { few_args row.follow ≡ true }
    ensures { unwrap_or result (Line·alone Unread) ≡ Line·called row (words line.now) }
{
    let ask = row.ask;
    match row.follow {
        Follow::Numbers(count) => {
            let args = numbers(line, count)?;
            Some(Parsed { ask, args })
        }
        Follow::Sizes(most, most_too) => {
            let args = numbers(line, 2)?;
            (args[0] <= most && args[1] <= most_too).then_some(Parsed { ask, args })
        }
        Follow::Hex => {
            let (word, rest) = next_word(line)?;
            (next_word(rest).is_none() && is_hex(word)).then_some(alone(ask))
        }
    }
}

fn asked(word: &[u8], line: &[u8]) -> Option<Parsed>
    ensures { unwrap_or result (Line·alone Unread) ≡ asked table word.now (words line.now) }
{
    called(line, find_call(word)?)
}

pub fn parse(line: &[u8]) -> Parsed
    ensures { result ≡ parsed_of line.now }
{
    if line.len() > LONGEST {
        return alone(Ask::Unread);
    }
    let Some((word, rest)) = next_word(line) else {
        return alone(Ask::Nothing);
    };
    if word.starts_with(b"#") {
        return alone(Ask::Nothing);
    }
    asked(word, rest).unwrap_or(alone(Ask::Unread))
}
