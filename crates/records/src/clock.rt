// The clock of a site.
ghost use Rattle.std.specs.Prelude.{◌≡◌, ◌+◌, ◌*◌, ◌==◌};

// The delay limit and the time.
#[derive(Clone, Copy, PartialEq, Eq, Debug)]
pub struct Clock {
    pub delay: u32,
    pub time: u32,
}

impl Clock {
    // Whether the time is so many delay limits after this tick.
    pub fn is_after(self, delays: u32, tick: u32) -> bool
        ensures { result ≡ (tick + delays * self.delay == self.time) }
    {
        u64::from(tick) + u64::from(delays) * u64::from(self.delay) == u64::from(self.time)
    }

    // Whether an item that was sent in this tick has to be brought before the clock moves on.
    pub fn is_last_for(self, sent: u32) -> bool
        ensures { result ≡ (sent + self.delay == self.time + 1) }
    {
        u64::from(sent) + u64::from(self.delay) == u64::from(self.time) + 1
    }
}
