// The states of a head.
ghost use Rattle.std.specs.Prelude.{◌≡◌, Some, decimal};
ghost use Rattle.protocol.specs.Numbers.{state_number};

use std::fmt;

// A newcomer listens, asks the others for their copies if it has none, and then is active, or stranded where nobody answered.
#[derive(Clone, Copy, PartialEq, Eq, Debug)]
pub enum HeadState {
    Listening,
    Inquiring,
    Active,
    Stranded,
}

// The number by which the state is told.
impl From<HeadState> for u32 {
    ghost from_gives = { λ state number. number ≡ state_number state };

    fn from(state: HeadState) -> u32 {
        match state {
            HeadState::Listening => 1,
            HeadState::Inquiring => 2,
            HeadState::Active => 3,
            HeadState::Stranded => 4,
        }
    }
}

// A state is told by its number.
impl fmt::Display for HeadState {
    ghost output = { λ state. Some (decimal (state_number state)) };

    fn fmt<W: fmt::Write>(&self, f: &mut fmt::Formatter<W>) -> fmt::Result {
        write!(f, "{}", u32::from(*self))
    }
}
