// Heads that turn active.
ghost use Rattle.std.specs.Prelude.{◌≡◌};
ghost use Rattle.tables.specs.HeadPlaces.{head_of, heads_of};
ghost use Rattle.protocol.specs.Tick.{activations as activations_told, is_activation, turn as turn_told};
ghost use Rattle.tables.specs.Turns.{turn_of};

use crate::turn::turn_at;
use records::clock::Clock;
use tables::head::Head;
use tables::turn::Turn;

// How many heads turn active in the tick that makes the time that of the clock.
// Counted in a loop, by a rule of this project on the lent tables.
pub fn activations<V: Copy>(heads: &[Head<V>], clock: Clock) -> usize
    ensures { result ≡ activations_told clock.delay clock.time (heads_of heads.now) }
{
    let mut count = 0;
    for h in heads {
        if activates(h, clock) {
            count += 1;
        }
    }
    count
}

// Whether the head turns active in the tick that makes the time that of the clock.
fn activates<V: Copy>(h: &Head<V>, clock: Clock) -> bool
    ensures { result ≡ is_activation (turn_told clock.delay clock.time (head_of h.now)) }
{
    is_activation(turn_at(h, clock))
}

// Whether a head that takes this turn turns active.
pub fn is_activation<V: Copy>(turn: Turn<V>) -> bool
    ensures { result ≡ is_activation (turn_of turn) }
{
    match turn {
        Turn::Activate(copy) => copy.is_there(),
        Turn::Rest | Turn::Inquire | Turn::Strand => false,
    }
}
