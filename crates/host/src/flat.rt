// Answers and posts as records of numbers, by value.
ghost use Rattle.std.specs.Prelude.{◌≡◌};
ghost use Rattle.host.specs.Flat.{said_of, post_of, number_if};

use crate::{Posted, Said};
use refusal::Refusal;
use rules::{Post, Reply};

// A refusal's number where there is one, and else what the answer holds.
impl From<Result<Reply, Refusal>> for Said {
    ghost from_gives = { λ reply s. s ≡ said_of reply };

    fn from(reply: Result<Reply, Refusal>) -> Said {
        match reply {
            Err(refusal) => Said {
                refusal: u32::from(refusal.number()),
                ..Said::default()
            },
            Ok(
                Reply::Answered {
                    answer,
                    messages,
                    place,
                },
            ) => Said {
                refusal: 0,
                answer: answer as u32,
                number: messages,
                place,
            },
            Ok(Reply::First(number) | Reply::Count(number)) => Said {
                number,
                ..Said::default()
            },
        }
    }
}

impl From<Posted> for Post {
    ghost from_gives = { λ m p. p ≡ post_of m };

    fn from(m: Posted) -> Post {
        // A test over 1 is out of its range: so is the kind 3.
        let wide = m.immediate > 1 || m.fenced > 1;
        Post {
            kind: if wide { 3 } else { m.kind },
            immediate: m.immediate == 1,
            fenced: m.fenced == 1,
            ticket: m.ticket,
            offset: m.offset,
            length: m.length,
            address: m.address,
            key: m.key,
            value: m.value,
        }
    }
}

// For C, which has no Result: 0 where the tables pass.
pub(crate) fn number_if(passes: bool) -> u32
    ensures { result ≡ number_if passes }
{
    if passes {
        0
    } else {
        u32::from(Refusal::Audit.number())
    }
}
