// A day of one head by its passes: it is swapped in, learns the plan, reads, writes and is swapped out.
#![tactic(auto)]

use crate::day::Day;
use plans::Plan;
use protocol::state::HeadState;
use records::copied::Copied;
use records::names::Names;
use register::make;
use sitelines::make_line;
use tables::head::Head;
use tables::mail::MailPlace;
use wordlog::log::WordLog;

mod day;
mod stages;

// The plan at the start of the day.
const START: Plan = Plan {
    cycle: 90,
    offset: 10,
    green: 40,
};

// No place means anything before the site is made.
const NO_COPY: Copied<Plan> = Copied {
    stamp: -1,
    value: START,
};

fn main(rt: HostRuntime) -> anyhow::Result<()> {
    run(&rt)
}

// Four heads, mail within a tick, one swap a tick.
fn run(rt: &HostRuntime) -> anyhow::Result<()> {
    let mut heads = [Head {
        name: 0,
        state: HeadState::Listening,
        copy: NO_COPY,
        swap_tick: 0,
        inquiry_tick: 0,
        best: NO_COPY,
        held: Names::new(),
    }; 4];
    let mut mail = [MailPlace {
        kind: None,
        sender: 0,
        receiver: 0,
        sent: 0,
        copy: NO_COPY,
    }; 16];
    let mut words = [0; 12];
    let log = WordLog::open(&mut words);
    let made = make(&mut heads, &mut mail, &log, 1, 1, START);
    rt.println(make_line(rt.alloc(), &made)?)?;
    let Ok(site) = made else {
        return Ok(());
    };
    let mut day = Day {
        rt,
        site,
        heads,
        mail,
        log,
    };
    work(&mut day)
}

// The stages of the day, each with the pass that the one before gave.
fn work(day: &mut Day) -> anyhow::Result<()> {
    let newcomer = day.swap_in(2)?;
    let member = day.learn(newcomer)?;
    day.read(&member)?;
    let writer = day.write(member)?;
    let member = day.finish(writer)?;
    day.read(&member)?;
    day.swap_out(member)
}
