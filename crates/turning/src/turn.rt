// A head's turn in a tick.
ghost use Rattle.std.specs.Prelude.{◌≡◌};
ghost use Rattle.protocol.specs.Tick.{turn as turn_told, activates_or, rests, turned_by};
ghost use Rattle.records.specs.Copies.{copied};
ghost use Rattle.tables.specs.HeadPlaces.{head_of};
ghost use Rattle.tables.specs.Turns.{turn_of};

use protocol::state::HeadState;
use records::clock::Clock;
use records::copied::Copied;
use tables::head::Head;
use tables::turn::Turn;

// What the head does in the tick that makes the time that of the clock.
pub fn turn_at<V: Copy>(h: &Head<V>, clock: Clock) -> Turn<V>
    ensures { turn_of result ≡ turn_told clock.delay clock.time (head_of h.now) }
{
    match h.state {
        HeadState::Listening if clock.is_after(1, h.swap_tick) => {
            activate_or(Turn::Inquire, h.copy)
        }
        HeadState::Inquiring if clock.is_after(2, h.inquiry_tick) => {
            activate_or(Turn::Strand, h.copy.newer(h.best))
        }
        _ => Turn::Rest,
    }
}

// The turn of a head that would be active with this copy, and takes the other turn without one.
fn activate_or<V: Copy>(otherwise: Turn<V>, copy: Copied<V>) -> Turn<V>
    ensures { turn_of result ≡ activates_or (turn_of otherwise) (copied copy) }
{
    if copy.is_there() {
        Turn::Activate(copy)
    } else {
        otherwise
    }
}

// The head after its turn.
pub fn turned<V: Copy>(h: Head<V>, turn: Turn<V>, time: u32) -> Head<V>
    ensures { head_of result ≡ turned_by time (turn_of turn) (head_of h) }
{
    match turn {
        Turn::Rest => h,
        Turn::Inquire => Head {
            state: HeadState::Inquiring,
            inquiry_tick: time,
            ..h
        },
        Turn::Activate(copy) => activated(h, copy),
        Turn::Strand => Head {
            state: HeadState::Stranded,
            ..h
        },
    }
}

// The head when it turns active with this copy; without a copy it stays as it is.
fn activated<V: Copy>(h: Head<V>, copy: Copied<V>) -> Head<V>
    ensures { head_of result ≡ turned_by 0 (activates_or rests (copied copy)) (head_of h) }
{
    if copy.is_there() {
        Head {
            state: HeadState::Active,
            copy,
            held: h.held.cleared(),
            ..h
        }
    } else {
        h
    }
}
