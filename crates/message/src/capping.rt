// Settings with their codes in range, so that code can compute with any that are lent.
ghost use Rattle.std.specs.Prelude.{◌≡◌};
ghost use Rattle.message.specs.Capped.{capped, tidy};

use rules::{Settings, Standing};

#[tactic(auto, unfolding(crate::specs::Capped::capped))]
fn capped(s: Settings) -> Settings
    ensures { result ≡ capped s }
{
    Settings {
        pkey: s.pkey % 65_536,
        pmtu: s.pmtu.min(5),
        timeout: s.timeout.min(31),
        ..s
    }
}

pub fn tidied(t: Standing) -> Standing
    ensures { result ≡ tidy t }
{
    Standing {
        settings: capped(t.settings),
        ..t
    }
}
