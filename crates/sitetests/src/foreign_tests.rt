// Tables that no run leads to, and what a swap takes out of them.
use crate::worlds::{NEXT, START, World, blank_place, bring, head, item, new_heads, new_site};
use closedlog::ClosedLog;
use plans::Plan;
use protocol::answer::Answer;
use protocol::call::Call;
use protocol::kind::MailKind;
use protocol::refusal::Refusal;
use protocol::state::HeadState;
use records::names::Names;
use std::test::Fail;
use wordlog::log::WordLog;

fn seen(stamp: i64) -> Answer<Plan> {
    Answer::Seen {
        state: HeadState::Active,
        stamp,
    }
}

// Two heads have the name 2: the first counts, and the other gets its mail as every other head does.
#[test]
fn the_first_head_with_a_name_counts(rt: HostRuntime) -> Result<(), Fail> {
    let heads = [
        head(1, HeadState::Active, 0),
        head(2, HeadState::Active, 5),
        head(2, HeadState::Active, 9),
        head(4, HeadState::Active, 268_435_454),
    ];
    let table = [
        (Call::Look { name: 2 }, seen(5)),
        (
            Call::Read { name: 2 },
            Answer::Value {
                stamp: 5,
                value: START,
            },
        ),
        (
            Call::Write {
                name: 2,
                value: NEXT,
            },
            Answer::Written { stamp: 6 },
        ),
        (bring(MailKind::Write, 2, 2), Answer::Brought),
        (Call::Look { name: 2 }, seen(6)),
        (bring(MailKind::Write, 2, 1), Answer::Brought),
        (Call::Look { name: 1 }, seen(6)),
        (bring(MailKind::Write, 2, 4), Answer::Brought),
        (Call::Look { name: 4 }, seen(268_435_454)),
        (
            bring(MailKind::Write, 2, 4),
            Answer::Refused(Refusal::NoSuchItem),
        ),
        (Call::Tick, Answer::Ticked { time: 1, turned: 0 }),
        (Call::Swap { name: 2 }, Answer::Swapped { name: 5 }),
        (Call::Look { name: 2 }, seen(9)),
        (
            Call::Write {
                name: 4,
                value: NEXT,
            },
            Answer::Written { stamp: 268_435_455 },
        ),
    ];
    let mut world = World {
        site: new_site()?,
        heads,
        mail: [blank_place(START); 16],
    };
    let mut words = [0u32; 6];
    let mut log = WordLog::<Plan>::open(&mut words);
    world.play(&rt, &mut log, &table);
    assert_eq!(rt; world.count_of(MailKind::Write, 4, 5), 1);
    assert_eq!(rt; world.count_all(), 3);
    Ok(())
}

#[test]
fn the_first_item_counts(rt: HostRuntime) -> Result<(), Fail> {
    let mut mail = [blank_place(START); 16];
    mail[3] = item(MailKind::Write, 1, 2, 7, 1);
    mail[7] = item(MailKind::Write, 1, 2, 7, 3);
    mail[9] = item(MailKind::Write, 1, 2, 7, 2);
    let table = [
        (bring(MailKind::Write, 1, 2), Answer::Brought),
        (Call::Look { name: 2 }, seen(1)),
        (bring(MailKind::Write, 1, 2), Answer::Brought),
        (Call::Look { name: 2 }, seen(3)),
        (bring(MailKind::Write, 1, 2), Answer::Brought),
        (Call::Look { name: 2 }, seen(3)),
        (
            bring(MailKind::Write, 1, 2),
            Answer::Refused(Refusal::NoSuchItem),
        ),
    ];
    let mut world = World {
        site: new_site()?,
        heads: new_heads(),
        mail,
    };
    world.play(&rt, &mut ClosedLog, &table);
    Ok(())
}

// An item goes out of a full mail before its answer comes in. A write fits into three empty places, and starts at stamp 0 where there is no copy.
#[test]
fn a_full_mail(rt: HostRuntime) -> Result<(), Fail> {
    let mut heads = new_heads();
    heads[1] = head(2, HeadState::Active, -1);
    let mail = [item(MailKind::Inquiry, 3, 1, 7, -1); 16];
    let table = [
        (bring(MailKind::Inquiry, 3, 1), Answer::Brought),
        (bring(MailKind::Inquiry, 3, 1), Answer::Brought),
        (bring(MailKind::Inquiry, 3, 1), Answer::Brought),
        (bring(MailKind::Reply, 1, 3), Answer::Brought),
        (bring(MailKind::Reply, 1, 3), Answer::Brought),
        (
            Call::Write {
                name: 2,
                value: NEXT,
            },
            Answer::Refused(Refusal::NoRoom),
        ),
        (bring(MailKind::Reply, 1, 3), Answer::Brought),
        (Call::Look { name: 2 }, seen(-1)),
        (
            Call::Write {
                name: 2,
                value: NEXT,
            },
            Answer::Written { stamp: 0 },
        ),
        (Call::Look { name: 2 }, seen(0)),
    ];
    let mut world = World {
        site: new_site()?,
        heads,
        mail,
    };
    world.play(&rt, &mut ClosedLog, &table);
    assert_eq!(rt; world.count_of(MailKind::Write, 2, 4), 1);
    assert_eq!(rt; world.count_all(), 16);
    Ok(())
}

// A name that is held already is no 65th; head 2 holds as many as it can from the start, head 3 one less.
#[test]
fn held_names(rt: HostRuntime) -> Result<(), Fail> {
    let mut crowded = head(2, HeadState::Listening, 0);
    crowded.held = Names {
        list: [9; 64],
        count: 1000,
    };
    let mut roomy = head(3, HeadState::Stranded, 0);
    roomy.held = Names {
        list: [9; 64],
        count: 63,
    };
    let mut heads = new_heads();
    heads[1] = crowded;
    heads[2] = roomy;
    let mut mail = [blank_place(START); 16];
    mail[0] = item(MailKind::Inquiry, 9, 2, 7, -1);
    mail[1] = item(MailKind::Inquiry, 8, 2, 7, -1);
    mail[2] = item(MailKind::Inquiry, 9, 3, 7, -1);
    mail[3] = item(MailKind::Inquiry, 8, 3, 7, -1);
    mail[4] = item(MailKind::Inquiry, 7, 3, 7, -1);
    let no_room = Answer::Refused(Refusal::NoRoom);
    let table = [
        (bring(MailKind::Inquiry, 9, 2), Answer::Brought),
        (bring(MailKind::Inquiry, 8, 2), no_room),
        (bring(MailKind::Inquiry, 9, 3), Answer::Brought),
        (bring(MailKind::Inquiry, 8, 3), Answer::Brought),
        (bring(MailKind::Inquiry, 7, 3), no_room),
    ];
    let mut world = World {
        site: new_site()?,
        heads,
        mail,
    };
    world.play(&rt, &mut ClosedLog, &table);
    assert_eq!(rt;
        (world.heads[2].held.count, world.heads[2].held.list[63]),
        (64, 8)
    );
    assert_eq!(rt; world.count_all(), 2);
    Ok(())
}

// Mail to the head that leaves, its inquiries and its name go; its writes and replies stay.
#[test]
fn what_a_swap_takes_out(rt: HostRuntime) -> Result<(), Fail> {
    let mut keeper = head(1, HeadState::Listening, 0);
    keeper.held = Names {
        list: [2; 64],
        count: 2,
    };
    keeper.held.list[1] = 3;
    let mut heads = new_heads();
    heads[0] = keeper;
    let mut mail = [blank_place(START); 16];
    mail[0] = item(MailKind::Write, 1, 2, 7, 1);
    mail[1] = item(MailKind::Inquiry, 3, 2, 7, -1);
    mail[2] = item(MailKind::Reply, 4, 2, 7, 1);
    mail[3] = item(MailKind::Inquiry, 2, 1, 7, -1);
    mail[4] = item(MailKind::Write, 2, 3, 7, 4);
    mail[5] = item(MailKind::Reply, 2, 4, 7, 1);
    mail[6] = item(MailKind::Write, 1, 3, 7, 1);
    let table = [
        (Call::Swap { name: 2 }, Answer::Swapped { name: 5 }),
        (
            Call::Look { name: 5 },
            Answer::Seen {
                state: HeadState::Listening,
                stamp: -1,
            },
        ),
        (Call::Look { name: 2 }, Answer::Refused(Refusal::NoSuchHead)),
    ];
    let mut site = new_site()?;
    site.time = 6;
    let mut world = World { site, heads, mail };
    world.play(&rt, &mut ClosedLog, &table);
    assert_eq!(rt; (world.heads[1].name, world.heads[1].swap_tick), (5, 6));
    assert_eq!(rt;
        (world.heads[1].best.stamp, world.heads[1].held.count),
        (-1, 0)
    );
    assert_eq!(rt;
        (world.heads[0].held.count, world.heads[0].held.list[0]),
        (1, 3)
    );
    assert_eq!(rt; world.count_of(MailKind::Write, 2, 3), 1);
    assert_eq!(rt; world.count_of(MailKind::Reply, 2, 4), 1);
    assert_eq!(rt; world.count_of(MailKind::Write, 1, 3), 1);
    assert_eq!(rt; world.count_all(), 3);
    Ok(())
}
