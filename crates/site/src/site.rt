// A site: its numbers. The tables of its heads and its mail are lent to it at every call.
ghost use Rattle.std.specs.Prelude.{◌≤◌};

pub mod bring;
mod checks;
pub mod look;
pub mod make;
pub mod read;
pub mod swap;
pub mod tick;
pub mod write;

// A write under way: who writes, and the tick at which it began.
#[derive(Clone, Copy, PartialEq, Eq, Debug)]
pub struct UnderWay {
    pub writer: u32,
    pub begin: u32,
}

// Its size, the delay limit and the swaps allowed in a tick are fixed when it is made.
#[derive(Clone, Copy, PartialEq, Eq, Debug)]
pub struct Site {
    pub size: usize,
    pub delay: u32,
    pub swap_limit: u32,
    pub time: u32,
    pub swaps: u32,
    pub next_name: u32,
    pub under_way: Option<UnderWay>,
    ghost few: { size ≤ 64 },
}
