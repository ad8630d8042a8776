// Ticks: the order of the turns, what becomes of inquirers, and when a write is finished.
use crate::worlds::{NEXT, START, World, blank_place, bring, head, item, new_heads, new_site};
use closedlog::ClosedLog;
use plans::Plan;
use protocol::answer::Answer;
use protocol::call::Call;
use protocol::kind::MailKind;
use protocol::refusal::Refusal;
use protocol::state::HeadState;
use records::copied::Copied;
use records::names::Names;
use site::site::Site;
use std::test::Fail;
use tables::head::Head;

fn seen(name: u32, state: HeadState, stamp: i64) -> (Call<Plan>, Answer<Plan>) {
    (Call::Look { name }, Answer::Seen { state, stamp })
}

fn ticked(time: u32, turned: u32) -> (Call<Plan>, Answer<Plan>) {
    (Call::Tick, Answer::Ticked { time, turned })
}

fn refused(call: Call<Plan>, why: Refusal) -> (Call<Plan>, Answer<Plan>) {
    (call, Answer::Refused(why))
}

// A new site, but for the time and the delay limit.
fn site_at(time: u32, delay: u32) -> Result<Site, Fail> {
    let mut site = new_site()?;
    site.time = time;
    site.delay = delay;
    Ok(site)
}

// A listening head that holds the name of another one.
fn holder(name: u32, held: u32) -> Head<Plan> {
    let mut h = head(name, HeadState::Listening, 0);
    h.held = Names {
        list: [held; 64],
        count: 1,
    };
    h
}

// A head that turns active replies to those that inquire at that moment: an earlier place does already, a later one does not yet.
#[test]
fn heads_turn_in_the_order_of_their_places(rt: HostRuntime) -> Result<(), Fail> {
    let mut world = World {
        site: site_at(0, 1)?,
        heads: new_heads(),
        mail: [blank_place(START); 16],
    };
    world.heads[0] = holder(1, 2);
    world.heads[1] = head(2, HeadState::Listening, -1);
    world.heads[2] = holder(3, 2);
    let table = [
        ticked(1, 2),
        seen(1, HeadState::Active, 0),
        seen(2, HeadState::Inquiring, -1),
        seen(3, HeadState::Active, 0),
    ];
    world.play(&rt, &mut ClosedLog, &table);
    assert_eq!(rt; world.count_of(MailKind::Inquiry, 2, 1), 1);
    assert_eq!(rt; world.count_of(MailKind::Inquiry, 2, 4), 1);
    assert_eq!(rt; world.count_of(MailKind::Reply, 1, 2), 0);
    assert_eq!(rt; world.count_of(MailKind::Reply, 3, 2), 1);
    assert_eq!(rt; world.count_all(), 4);
    Ok(())
}

fn inquirer(name: u32, stamp: i64, best_stamp: i64, inquiry_tick: u32) -> Head<Plan> {
    let mut h = head(name, HeadState::Inquiring, stamp);
    h.best = Copied {
        stamp: best_stamp,
        value: NEXT,
    };
    h.inquiry_tick = inquiry_tick;
    h
}

// Two replies to head 2 lie in a full mail, and make room for its own two, of which head 3 drops one. Equal stamps replace nothing.
#[test]
fn inquirers_come_to_an_end(rt: HostRuntime) -> Result<(), Fail> {
    let mut replier = inquirer(2, -1, 3, 0);
    replier.held = Names {
        list: [9; 64],
        count: 4,
    };
    replier.held.list[1] = 1;
    replier.held.list[2] = 3;
    replier.held.list[3] = 4;
    let heads = [
        inquirer(1, -1, -1, 0),
        replier,
        inquirer(3, 3, 3, 0),
        inquirer(4, -1, 8, 1),
    ];
    let mut world = World {
        site: site_at(1, 1)?,
        heads,
        mail: [item(MailKind::Write, 9, 8, 7, 1); 16],
    };
    world.mail[5] = item(MailKind::Reply, 9, 2, 7, 1);
    let full = [refused(Call::Tick, Refusal::NoRoom)];
    world.play(&rt, &mut ClosedLog, &full);
    world.mail[6] = item(MailKind::Reply, 9, 2, 7, 1);
    let table = [
        ticked(2, 2),
        seen(1, HeadState::Stranded, -1),
        seen(2, HeadState::Active, 3),
        seen(3, HeadState::Active, 3),
        seen(4, HeadState::Inquiring, -1),
    ];
    world.play(&rt, &mut ClosedLog, &table);
    assert_eq!(rt;
        (world.heads[1].copy.value, world.heads[2].copy.value),
        (NEXT, START)
    );
    assert_eq!(rt; world.heads[1].held.count, 0);
    assert_eq!(rt; world.count_of(MailKind::Reply, 2, 4), 1);
    assert_eq!(rt; world.count_all(), 15);
    Ok(())
}

// An inquiry fits into three empty places at the last tick.
#[test]
fn the_last_tick(rt: HostRuntime) -> Result<(), Fail> {
    let mut world = World {
        site: site_at(268_435_453, 1)?,
        heads: new_heads(),
        mail: [item(MailKind::Write, 9, 8, 7, 1); 16],
    };
    world.heads[1] = head(2, HeadState::Listening, -1);
    world.heads[1].swap_tick = 268_435_453;
    world.mail[0] = blank_place(START);
    world.mail[1] = blank_place(START);
    world.mail[15] = blank_place(START);
    let table = [
        ticked(268_435_454, 0),
        refused(Call::Tick, Refusal::LastTick),
    ];
    world.play(&rt, &mut ClosedLog, &table);
    assert_eq!(rt; world.count_all(), 16);
    Ok(())
}

#[test]
fn a_delay_of_two_ticks(rt: HostRuntime) -> Result<(), Fail> {
    let write = Call::Write {
        name: 2,
        value: NEXT,
    };
    let table = [
        (write, Answer::Written { stamp: 1 }),
        (Call::Swap { name: 4 }, Answer::Swapped { name: 5 }),
        refused(Call::Swap { name: 3 }, Refusal::SwapLimit),
        ticked(1, 0),
        refused(write, Refusal::WriteUnderWay),
        refused(Call::Tick, Refusal::MailDue),
        (bring(MailKind::Write, 2, 1), Answer::Brought),
        (bring(MailKind::Write, 2, 3), Answer::Brought),
        (Call::Swap { name: 3 }, Answer::Swapped { name: 6 }),
        refused(Call::Swap { name: 2 }, Refusal::WritingHead),
        ticked(2, 0),
        seen(5, HeadState::Inquiring, -1),
        seen(6, HeadState::Listening, -1),
        (write, Answer::Written { stamp: 2 }),
        (Call::Swap { name: 1 }, Answer::Swapped { name: 7 }),
    ];
    let mut world = World {
        site: site_at(0, 2)?,
        heads: new_heads(),
        mail: [blank_place(START); 16],
    };
    world.play(&rt, &mut ClosedLog, &table);
    Ok(())
}
