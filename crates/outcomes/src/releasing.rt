// "To release before B", of a pair of which the first record that stays was found.
ghost use Rattle.std.specs.Prelude.{◌≡◌, ◌-◌, ◌≤◌};
ghost use Rattle.rules.specs.Account.{further};
ghost use Rattle.rules.specs.Release.{renewed, clock_at, advanced};
ghost use Rattle.message.specs.Capped.{tidy};
ghost use Rattle.outcomes.specs.Deciding.{release_by};

use crate::Found;
use message::{passed_by, tidied, unanswered};
use psn::Psn;
use rules::{Clock, Line, Release, Settings, Standing};

// The further of x and y, by distance from u.
pub fn further(u: u32, x: u32, y: u32) -> u32
    ensures { result ≡ further u x y }
{
    if Psn::before(u, x, y) { y } else { x }
}

pub(crate) fn renewed(s: Settings, c: Clock) -> Clock
    ensures { result ≡ renewed s c }
{
    Clock {
        retries: s.retry,
        rnrs: s.rnr,
        elapsed: 0,
        ..c
    }
}

// Counts and elapsed time return if U moved.
fn clock_at(u: u32, a: u32, s: Settings, c: Clock) -> Clock
    ensures { result ≡ clock_at u a s c }
{
    if a == u { c } else { renewed(s, c) }
}

fn advanced(a: u32, t: Standing) -> Standing
    ensures { result ≡ advanced a t }
{
    let l = t.line;
    Standing {
        line: Line {
            u: a,
            x: further(l.u, l.x, a),
            ..l
        },
        clock: clock_at(l.u, a, t.settings, t.clock),
        ..t
    }
}

// held, f and t are no record: the definitions in Deciding take them one by one, and `timed` needs no f.
pub(crate) fn release_by(held: u32, f: Option<Found>, t: Standing, b: u32) -> Release
    ensures { (result ≡ release_by held f (tidy t) b) × (result.released ≤ held) }
{
    let now = tidied(t);
    let Some(f) = f else {
        return Release {
            stopped: false,
            released: held,
            standing: advanced(b, now),
        };
    };
    let stopped = passed_by(b, t, f.packet);
    let a = if stopped { unanswered(t, f.packet) } else { b };
    Release {
        stopped,
        released: held.saturating_sub(f.left),
        standing: advanced(a, now),
    }
}
