// "Timer step with elapsed e".
ghost use Rattle.std.specs.Prelude.{◌≡◌};
ghost use Rattle.rules.specs.Outcome.{ending};
ghost use Rattle.rules.specs.Timer.{ticked, retried, timed};
ghost use Rattle.message.specs.Capped.{tidy};

use crate::answering::{back_to_u, ended_standing, staying};
use message::{tidied, timeout};
use rules::{Answer, Clock, Outcome, Standing};

// The two times become these.
fn ticked(answer: Answer, elapsed: u64, hold: u64, t: Standing) -> Outcome
    ensures { result ≡ ticked answer elapsed hold t }
{
    let clock = Clock {
        elapsed,
        hold,
        ..t.clock
    };
    staying(answer, Standing { clock, ..t })
}

fn retried(t: Standing) -> Outcome
    ensures { result ≡ retried t }
{
    let c = t.clock;
    let standing = back_to_u(c.retries.saturating_sub(1), c.rnrs, c.hold, t);
    staying(Answer::Resending, standing)
}

fn ending(held: u32, t: Standing) -> Outcome
    ensures { result ≡ ending held t }
{
    Outcome {
        answer: Answer::Ended,
        released: 0,
        flushed: held,
        standing: ended_standing(t),
    }
}

// The elapsed time and e are not summed before they are known to be below the limit: the sum may not fit.
pub fn timed(e: u64, held: u32, t: Standing) -> Outcome
    ensures { result ≡ timed e held (tidy t) }
{
    let limit = timeout(t.settings);
    let now = tidied(t);
    let (l, c) = (now.line, now.clock);
    if 0 < c.hold {
        if c.hold <= e {
            ticked(Answer::Resumed, c.elapsed, 0, now)
        } else {
            ticked(Answer::Idle, c.elapsed, c.hold - e, now)
        }
    } else if l.u == l.h || now.settings.timeout == 0 {
        ticked(Answer::Idle, c.elapsed, c.hold, now)
    } else if e < limit.saturating_sub(c.elapsed) {
        ticked(Answer::Idle, c.elapsed + e, c.hold, now)
    } else if c.retries == 0 {
        ending(held, now)
    } else {
        retried(now)
    }
}
