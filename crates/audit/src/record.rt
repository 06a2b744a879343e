// A pair's record by itself: its state, its settings, its PSNs and counts, its times, and that a pair not ready holds none.
ghost use Rattle.std.specs.Prelude.{◌≡◌, false};
ghost use Rattle.rules.specs.Card.{small};
ghost use Rattle.rules.specs.Ranges.{bad_settings};
ghost use Rattle.rules.specs.Passes.Record.{bound_tests, timed_tests, record_passes};
ghost use Rattle.rules.specs.Passes.Tests.{all_of};

use message::{State, bad_settings, timeout};
use psn::Psn;
use rules::Standing;

const LONGEST_HOLD: u64 = 655_360_000;

// An open pair.
fn is_bounded(t: Standing, held: u32) -> bool
    ensures { result ≡ all_of (bound_tests small t held) }
{
    !bad_settings(t.settings)
        && t.line.u < Psn::COUNT
        && t.line.x < Psn::COUNT
        && t.line.h < Psn::COUNT
        && t.line.n < Psn::COUNT
        && t.clock.retries <= t.settings.retry
        && t.clock.rnrs <= t.settings.rnr
        && held <= t.settings.ceiling
}

// A ready pair, its timeout code in range.
fn is_timed(t: Standing) -> bool
    requires { bad_settings small t.settings ≡ false }
    ensures { result ≡ all_of (timed_tests t) }
{
    let most = timeout(t.settings);
    let still = t.clock.elapsed == 0;
    t.clock.hold <= LONGEST_HOLD
        && t.clock.elapsed < most
        && (t.line.u != t.line.h || still)
        && (t.clock.hold == 0 || still)
        && (t.settings.timeout != 0 || still)
}

#[tactic(auto, using(crate::proofs::Both::both), unfolding(rules::specs::Passes::Record::record_passes))]
pub(crate) fn record_passes(t: Standing, held: u32) -> bool
    ensures { result ≡ record_passes small t held }
{
    match State::try_from(t.state) {
        Ok(State::Closed) => held == 0,
        Ok(State::Ready) => is_bounded(t, held) && is_timed(t),
        Ok(State::Ended) => is_bounded(t, held) && held == 0,
        Err(_) => false,
    }
}
