// A place of a head.
use protocol::state::HeadState;
use records::copied::Copied;
use records::names::Names;

// Its copy, the newest reply so far, and the names whose inquiries it holds.
#[derive(Clone, Copy, PartialEq, Eq, Debug)]
pub struct Head<V> {
    pub name: u32,
    pub state: HeadState,
    pub copy: Copied<V>,
    pub swap_tick: u32,
    pub inquiry_tick: u32,
    pub best: Copied<V>,
    pub held: Names,
}
