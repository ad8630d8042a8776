// Whole runs: the sample over a word log, a mode site over a record log, and a log that takes nothing.
use crate::worlds::{
    NEXT, START, World, blank_head, blank_place, bring, new_heads, new_site, play,
};
use closedlog::ClosedLog;
use logs::entry::{Entry, LogRefusal};
use logs::log::Log;
use modes::Mode;
use plans::Plan;
use protocol::answer::Answer;
use protocol::call::Call;
use protocol::kind::MailKind;
use protocol::refusal::Refusal;
use protocol::state::HeadState;
use recordlog::RecordLog;
use register::make;
use std::test::Fail;
use wordlog::log::WordLog;

#[test]
fn the_sample_run(rt: HostRuntime) -> Result<(), Fail> {
    let table = [
        (
            Call::Write {
                name: 1,
                value: NEXT,
            },
            Answer::Written { stamp: 1 },
        ),
        (
            Call::Swap { name: 1 },
            Answer::Refused(Refusal::WritingHead),
        ),
        (Call::Swap { name: 2 }, Answer::Swapped { name: 5 }),
        (Call::Tick, Answer::Refused(Refusal::MailDue)),
        (
            Call::Read { name: 3 },
            Answer::Value {
                stamp: 0,
                value: START,
            },
        ),
        (bring(MailKind::Write, 1, 3), Answer::Brought),
        (bring(MailKind::Write, 1, 4), Answer::Brought),
        (Call::Tick, Answer::Ticked { time: 1, turned: 0 }),
        (Call::Read { name: 5 }, Answer::Refused(Refusal::NotActive)),
        (bring(MailKind::Inquiry, 5, 1), Answer::Brought),
        (bring(MailKind::Inquiry, 5, 3), Answer::Brought),
        (bring(MailKind::Inquiry, 5, 4), Answer::Brought),
        (bring(MailKind::Reply, 1, 5), Answer::Brought),
        (bring(MailKind::Reply, 3, 5), Answer::Brought),
        (bring(MailKind::Reply, 4, 5), Answer::Brought),
        (Call::Tick, Answer::Ticked { time: 2, turned: 0 }),
        (Call::Tick, Answer::Ticked { time: 3, turned: 1 }),
        (
            Call::Read { name: 5 },
            Answer::Value {
                stamp: 1,
                value: NEXT,
            },
        ),
    ];
    let mut heads = [blank_head(START); 4];
    let mut mail = [blank_place(START); 16];
    let mut words = [0u32; 4096];
    let mut log = WordLog::<Plan>::open(&mut words);
    let mut site = make(&mut heads, &mut mail, &log, 1, 1, START)?;
    play(&rt, &mut site, &mut heads, &mut mail, &mut log, &table);
    let expected = [
        0x1000_0000,
        0x2000_0003,
        0x3000_0000,
        0x4000_005a,
        0x4000_000a,
        0x4000_0028,
        0x1000_0003,
        0x2000_0005,
        0x3000_0001,
        0x4000_0064,
        0x4000_0014,
        0x4000_0032,
    ];
    assert_eq!(rt; log.filled_words(), &expected[..]);
    Ok(())
}

// The log has an entry already, and takes one more.
#[test]
fn a_mode_site_over_a_record_log(rt: HostRuntime) -> Result<(), Fail> {
    let value = Mode::Actuated { longest_green: 60 };
    let table = [
        (Call::Write { name: 1, value }, Answer::Written { stamp: 1 }),
        (bring(MailKind::Write, 1, 2), Answer::Brought),
        (bring(MailKind::Write, 1, 3), Answer::Brought),
        (Call::Tick, Answer::Refused(Refusal::MailDue)),
        (bring(MailKind::Write, 1, 4), Answer::Brought),
        (Call::Tick, Answer::Ticked { time: 1, turned: 0 }),
        (Call::Tick, Answer::Ticked { time: 2, turned: 0 }),
        (
            Call::Look { name: 2 },
            Answer::Seen {
                state: HeadState::Active,
                stamp: 1,
            },
        ),
        (Call::Read { name: 2 }, Answer::Value { stamp: 1, value }),
        (
            Call::Read { name: 3 },
            Answer::Refused(Refusal::Log(LogRefusal::Full)),
        ),
    ];
    let first = Entry {
        tick: 9,
        name: 9,
        stamp: 9,
        value: Mode::Held { last_tick: 9 },
    };
    let mut heads = [blank_head(Mode::Fixed); 4];
    let mut mail = [blank_place(Mode::Fixed); 16];
    let mut places = [first; 2];
    let mut log = RecordLog::open(&mut places);
    assert!(rt; log.add(&first).is_ok());
    let mut site = make(&mut heads, &mut mail, &log, 1, 1, Mode::Fixed)?;
    play(&rt, &mut site, &mut heads, &mut mail, &mut log, &table);
    assert_eq!(rt; (log.count(), log.free()), (2, 0));
    assert_eq!(rt; log.get(0).ok(), Some(first));
    assert_eq!(rt;
        log.get(1).ok(),
        Some(Entry {
            tick: 2,
            name: 2,
            stamp: 1,
            value,
        })
    );
    Ok(())
}

#[test]
fn a_closed_log_takes_no_read(rt: HostRuntime) -> Result<(), Fail> {
    let table = [
        (Call::Read { name: 1 }, 32),
        (Call::Read { name: 2 }, 32),
        (Call::Read { name: 3 }, 32),
        (Call::Read { name: 4 }, 32),
    ];
    let world = World {
        site: new_site()?,
        heads: new_heads(),
        mail: [blank_place(START); 16],
    };
    world.refused(&rt, &mut ClosedLog, &table);
    Ok(())
}
