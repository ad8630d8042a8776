// A tick, before anything is altered.
ghost use Rattle.std.specs.Prelude.{◌≡◌, ◌-◌, None};
ghost use Rattle.protocol.specs.Sites.{refused_by};
ghost use Rattle.records.specs.Passing.{Passes};
ghost use Rattle.room.specs.Checks.{checks};

use crate::survey::survey;
use protocol::refusal::Refusal;
use records::clock::Clock;
use tables::head::Head;
use tables::mail::MailPlace;

// No site has more heads.
const MOST_HEADS: usize = 64;

// The clock goes no further.
const LAST_TICK: u32 = 268_435_454;

// Whether the tick that moves the clock on can be made, or why it is refused: more than 64 heads, the clock at its end, an item that has to be brought before, or one that would find no place.
pub fn foresee<V: Copy>(
    heads: &[Head<V>],
    mail: &[MailPlace<V>],
    clock: Clock,
) -> Result<(), Refusal>
    ensures { Passes (refused_by (checks heads.now mail.now clock.delay clock.time) None) result }
{
    if heads.len() > MOST_HEADS {
        return Err(Refusal::ForeignTables);
    }
    if clock.time >= LAST_TICK {
        return Err(Refusal::LastTick);
    }
    let Ok(mut forecast) = survey(heads, mail, clock) else {
        return Err(Refusal::MailDue);
    };
    forecast.follow_all(Clock {
        time: clock.time + 1,
        ..clock
    })
}
