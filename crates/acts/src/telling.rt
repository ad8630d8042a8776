// What a head tells of itself.
ghost use Rattle.std.specs.Prelude.{◌≡◌};
ghost use Rattle.protocol.specs.Heads.{is_active, signed_stamp};
ghost use Rattle.tables.specs.HeadPlaces.{head_of};

use protocol::state::HeadState;
use tables::head::Head;

// Whether this is the state of an active head.
pub fn is_active(state: HeadState) -> bool
    ensures { result ≡ is_active state }
{
    state == HeadState::Active
}

// The stamp of the head's copy, −1 where it has none: it is told as a signed stamp, by the rules.
pub fn copy_stamp<V: Copy>(h: Head<V>) -> i64
    ensures { result ≡ signed_stamp (head_of h).copy }
{
    h.copy.stamp.max(-1)
}
