// Heads that inquire.
ghost use Rattle.std.specs.Prelude.{◌≡◌, filter};
ghost use Rattle.protocol.specs.Heads.{inquiring_named, is_inquiring};
ghost use Rattle.records.specs.NameLists.{names_of};
ghost use Rattle.tables.specs.HeadPlaces.{held_of, heads_of};

use heads::searches::has_name;
use protocol::state::HeadState;
use records::names::{NameTest, Names};
use tables::head::Head;

// Whether a head with this name is present and inquiring; the first such head counts.
// Searched in a loop, by a rule of this project on the lent tables.
pub fn is_inquiring<V: Copy>(heads: &[Head<V>], name: u32) -> bool
    ensures { result ≡ inquiring_named name (heads_of heads.now) }
{
    for h in heads {
        if has_name(*h, name) {
            return inquires(h.state);
        }
    }
    false
}

// Whether this is the state of a head that inquires.
pub fn inquires(state: HeadState) -> bool
    ensures { result ≡ is_inquiring state }
{
    state == HeadState::Inquiring
}

// The names that the head holds whose heads are present and inquiring, in their order.
pub fn inquirers<V: Copy>(h: Head<V>, heads: &[Head<V>]) -> Names
    ensures { names_of result ≡ filter (λ x. inquiring_named x (heads_of heads.now)) (held_of h) }
{
    h.held.filtered(&Inquiring { heads })
}

// The names whose heads are present and inquiring.
#[derive(Drop)]
struct Inquiring<'a, V> {
    heads: &'a [Head<V>],
}

impl<V: Copy> NameTest for Inquiring<'_, V> {
    ghost passing = { λ inquiring name. inquiring_named name (heads_of inquiring.heads.now) };

    fn passes(&self, name: u32) -> bool {
        is_inquiring(self.heads, name)
    }
}
