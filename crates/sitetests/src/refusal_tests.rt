// The refusals of the calls after make, and their order where more than one check holds. Each leaves everything as it was.
use crate::worlds::{
    LAWLESS, NEXT, START, World, blank_place, bring, head, item, new_heads, new_site,
};
use closedlog::ClosedLog;
use plans::Plan;
use protocol::call::Call;
use protocol::kind::MailKind;
use protocol::state::HeadState;
use records::names::Names;
use site::site::UnderWay;
use std::process::Abort;
use std::test::Fail;

#[test]
fn refused_swaps(rt: HostRuntime) -> Result<(), Fail> {
    let mut world = World {
        site: new_site()?,
        heads: new_heads(),
        mail: [blank_place(START); 16],
    };
    world.site.next_name = 268_435_456;
    let last = [
        (Call::Swap { name: 0 }, 11),
        (Call::Swap { name: 5 }, 11),
        (Call::Swap { name: 1 }, 14),
    ];
    world.refused(&rt, &mut ClosedLog, &last);
    world.site.swaps = 1;
    world.site.under_way = Some(UnderWay {
        writer: 1,
        begin: 0,
    });
    let all = [
        (Call::Swap { name: 5 }, 11),
        (Call::Swap { name: 1 }, 15),
        (Call::Swap { name: 2 }, 13),
    ];
    world.refused(&rt, &mut ClosedLog, &all);
    Ok(())
}

// An active head without a copy has no sound entry, which is judged before the full log.
#[test]
fn refused_reads_and_looks(rt: HostRuntime) -> Result<(), Fail> {
    let heads = [
        head(1, HeadState::Active, -1),
        head(2, HeadState::Listening, 0),
        head(3, HeadState::Stranded, 0),
        head(4, HeadState::Active, 0),
    ];
    let table = [
        (Call::Read { name: 5 }, 11),
        (Call::Read { name: 2 }, 12),
        (Call::Read { name: 3 }, 12),
        (Call::Read { name: 1 }, 31),
        (Call::Read { name: 4 }, 32),
        (Call::Look { name: 5 }, 11),
    ];
    let world = World {
        site: new_site()?,
        heads,
        mail: [blank_place(START); 16],
    };
    world.refused(&rt, &mut ClosedLog, &table);
    Ok(())
}

fn write(name: u32, value: Plan) -> Call<Plan> {
    Call::Write { name, value }
}

#[test]
fn refused_writes(rt: HostRuntime) -> Result<(), Fail> {
    let heads = [
        head(1, HeadState::Active, 0),
        head(2, HeadState::Inquiring, 0),
        head(3, HeadState::Active, 268_435_455),
        head(4, HeadState::Active, 0),
    ];
    let full = [item(MailKind::Write, 9, 8, 7, 1); 16];
    let mut world = World {
        site: new_site()?,
        heads,
        mail: full,
    };
    let no_room = [
        (write(1, LAWLESS), 16),
        (write(1, NEXT), 7),
        (write(3, NEXT), 7),
    ];
    world.refused(&rt, &mut ClosedLog, &no_room);
    world.mail[0] = blank_place(START);
    world.mail[15] = blank_place(START);
    world.refused(&rt, &mut ClosedLog, &no_room);
    world.mail = [blank_place(START); 16];
    let no_stamp = [(write(3, LAWLESS), 16), (write(3, NEXT), 7)];
    world.refused(&rt, &mut ClosedLog, &no_stamp);
    world.mail = full;
    world.site.under_way = Some(UnderWay {
        writer: 4,
        begin: 0,
    });
    let all = [
        (write(5, LAWLESS), 11),
        (write(2, LAWLESS), 12),
        (write(3, LAWLESS), 16),
        (write(3, NEXT), 17),
    ];
    world.refused(&rt, &mut ClosedLog, &all);
    Ok(())
}

#[test]
fn refused_brings(rt: HostRuntime) -> Result<(), Fail> {
    let mut crowded = head(2, HeadState::Listening, 0);
    crowded.held = Names {
        list: [6; 64],
        count: 64,
    };
    let heads = [
        head(1, HeadState::Active, 0),
        crowded,
        head(3, HeadState::Active, 0),
        head(4, HeadState::Active, 0),
    ];
    let mut mail = [blank_place(START); 16];
    mail[0] = item(MailKind::Write, 1, 9, 7, 1);
    mail[1] = item(MailKind::Inquiry, 9, 2, 7, -1);
    let table = [
        (bring(MailKind::Write, 1, 2), 21),
        (bring(MailKind::Write, 1, 9), 21),
        (bring(MailKind::Reply, 9, 2), 21),
        (bring(MailKind::Inquiry, 2, 9), 21),
        (bring(MailKind::Inquiry, 9, 2), 7),
    ];
    let world = World {
        site: new_site()?,
        heads,
        mail,
    };
    world.refused(&rt, &mut ClosedLog, &table);
    Ok(())
}

// A full mail with an item that is due, and a head that is about to inquire.
#[test]
fn refused_ticks(rt: HostRuntime) -> Result<(), Fail> {
    let mut world = World {
        site: new_site()?,
        heads: new_heads(),
        mail: [item(MailKind::Write, 9, 8, 7, 1); 16],
    };
    world.site.time = 268_435_454;
    world.heads[1] = head(2, HeadState::Listening, -1);
    world.heads[1].swap_tick = 268_435_454;
    world.mail[11] = item(MailKind::Reply, 9, 8, 268_435_454, 1);
    world.refused(&rt, &mut ClosedLog, &[(Call::Tick, 23)]);
    world.site.time = 268_435_453;
    world.heads[1].swap_tick = 268_435_453;
    world.mail[11] = item(MailKind::Reply, 9, 8, 268_435_453, 1);
    world.refused(&rt, &mut ClosedLog, &[(Call::Tick, 22)]);
    world.mail[11] = blank_place(START);
    world.mail[3] = blank_place(START);
    world.refused(&rt, &mut ClosedLog, &[(Call::Tick, 7)]);
    Ok(())
}

// All calls over tables that are not those of the site, with other checks that hold too.
fn foreign<const HEADS: usize, const PLACES: usize>(rt: &impl Abort, world: World<HEADS, PLACES>) {
    let table = [
        (Call::Swap { name: 9 }, 6),
        (Call::Read { name: 9 }, 6),
        (write(9, LAWLESS), 6),
        (bring(MailKind::Write, 9, 9), 6),
        (Call::Tick, 6),
        (Call::Look { name: 9 }, 6),
        (Call::Swap { name: 1 }, 6),
        (Call::Read { name: 1 }, 6),
        (write(1, NEXT), 6),
        (Call::Look { name: 1 }, 6),
    ];
    world.refused(rt, &mut ClosedLog, &table);
}

#[test]
fn tables_of_another_size(rt: HostRuntime) -> Result<(), Fail> {
    let mut site = new_site()?;
    site.time = 268_435_454;
    let h = head(1, HeadState::Active, 0);
    let p = blank_place(START);
    let mail = [p; 16];
    let heads = [h; 3];
    foreign(&rt, World { site, heads, mail });
    let heads = [h; 5];
    foreign(&rt, World { site, heads, mail });
    let (heads, mail) = ([h; 4], [p; 15]);
    foreign(&rt, World { site, heads, mail });
    let (heads, mail) = ([h; 0], [p; 0]);
    foreign(&rt, World { site, heads, mail });
    Ok(())
}
