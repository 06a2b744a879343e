// The table of calls: each first word, and what follows it.
ghost use Rattle.std.specs.Prelude.{◌≡◌};
ghost use Rattle.text.specs.Inner.{row_of};

use crate::{Ask, Follow, Row};

// The row of the call that a word names.
pub(crate) fn find_call(word: &[u8]) -> Option<Row>
    ensures { result ≡ row_of word.now }
{
    let (ask, follow) = match word {
        b"fresh" => (Ask::Fresh, Follow::Numbers(0)),
        b"open" => (Ask::Open, Follow::Numbers(10)),
        b"post" => (Ask::Post, Follow::Numbers(10)),
        b"emit" => (Ask::Emit, Follow::Numbers(2)),
        b"ack" => (Ask::Ack, Follow::Numbers(3)),
        b"response" => (Ask::Response, Follow::Numbers(4)),
        b"timer" => (Ask::Timer, Follow::Numbers(2)),
        b"close" => (Ask::Close, Follow::Numbers(1)),
        b"room" => (Ask::Room, Follow::Sizes(8192, 2048)),
        b"show" => (Ask::Show, Follow::Numbers(1)),
        b"free" => (Ask::Free, Follow::Numbers(0)),
        b"write" => (Ask::Write, Follow::Numbers(11)),
        b"read" => (Ask::Read, Follow::Hex),
        _ => return None,
    };
    Some(Row { ask, follow })
}
