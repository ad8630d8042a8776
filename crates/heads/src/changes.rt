// What happens to one head.
ghost use Rattle.std.specs.Prelude.{◌≡◌, ◌==◌, true, false, not};
ghost use Rattle.protocol.specs.Heads.{holding, forgetting, with_copy, with_best, newer};
ghost use Rattle.protocol.specs.Swap.{newcomer as newcomer_of};
ghost use Rattle.protocol.specs.Make.{original as original_of};
ghost use Rattle.records.specs.Copies.{copied};
ghost use Rattle.tables.specs.HeadPlaces.{head_of, has_room};

use protocol::state::HeadState;
use records::copied::Copied;
use records::names::NameTest;
use tables::head::Head;

// The head when a WRITE with this copy has reached it.
pub fn receive_write<V: Copy>(h: Head<V>, copy: Copied<V>) -> Head<V>
    ensures { head_of result ≡ with_copy (newer (head_of h).copy (copied copy)) (head_of h) }
{
    Head {
        copy: h.copy.newer(copy),
        ..h
    }
}

// The head when a REPLY with this copy has reached it.
pub fn receive_reply<V: Copy>(h: Head<V>, reply: Copied<V>) -> Head<V>
    ensures { head_of result ≡ with_best (newer (head_of h).best (copied reply)) (head_of h) }
{
    Head {
        best: h.best.newer(reply),
        ..h
    }
}

// The head when it holds this name too; one that is held already is not added again. A full head stays as it is.
pub fn hold<V: Copy>(h: Head<V>, name: u32) -> Head<V>
    ensures held { has_room name (head_of h) ≡ true → head_of result ≡ holding name (head_of h) }
    ensures full { has_room name (head_of h) ≡ false → result ≡ h }
{
    Head {
        held: h.held.with(name),
        ..h
    }
}

// The head when it holds this name no more.
pub(crate) fn forget<V: Copy>(h: Head<V>, name: u32) -> Head<V>
    ensures { head_of result ≡ forgetting name (head_of h) }
{
    Head {
        held: h.held.filtered(&OtherThan { name }),
        ..h
    }
}

// The names other than this one.
#[derive(Drop)]
struct OtherThan {
    name: u32,
}

impl NameTest for OtherThan {
    ghost passing = { λ other name. not (name == other.name) };

    fn passes(&self, name: u32) -> bool {
        name != self.name
    }
}

// A newcomer in the place of a head; what it lacks stays as it was.
pub fn newcomer<V: Copy>(h: Head<V>, name: u32, tick: u32) -> Head<V>
    ensures { head_of result ≡ newcomer_of name tick h.inquiry_tick }
{
    Head {
        name,
        state: HeadState::Listening,
        copy: h.copy.cleared(),
        swap_tick: tick,
        best: h.best.cleared(),
        held: h.held.cleared(),
        ..h
    }
}

// A head that comes with the site, in the place of a head; what it lacks stays as it was.
pub fn original<V: Copy>(h: Head<V>, name: u32, start: V) -> Head<V>
    ensures { head_of result ≡ original_of start name (record { swap_tick = h.swap_tick; inquiry_tick = h.inquiry_tick }) }
{
    Head {
        name,
        state: HeadState::Active,
        copy: Copied {
            stamp: 0,
            value: start,
        },
        best: h.best.cleared(),
        held: h.held.cleared(),
        ..h
    }
}
