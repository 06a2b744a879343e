// A pair's state. Its record has the number, which a host may lend as any.
ghost use Rattle.std.specs.Prelude.{◌≡◌};
ghost use Rattle.message.specs.States.{state_of};

#[derive(Clone, Copy, Debug, PartialEq, Eq)]
pub enum State {
    Closed = 0,
    Ready = 1,
    Ended = 2,
}

// A number that is no state's.
#[derive(Clone, Copy, Debug, PartialEq, Eq)]
pub struct UnknownState {
    pub number: u32,
}

impl TryFrom<u32> for State {
    type Error = UnknownState;

    ghost try_from_gives = { λ n r. r ≡ state_of n };

    fn try_from(n: u32) -> Result<Self, UnknownState> {
        match n {
            0 => Ok(State::Closed),
            1 => Ok(State::Ready),
            2 => Ok(State::Ended),
            _ => Err(UnknownState { number: n }),
        }
    }
}
