// A site with its tables, and what a call does to them.
use kinds::value::Value;
use logs::log::Log;
use plans::Plan;
use protocol::answer::Answer;
use protocol::call::Call;
use protocol::kind::MailKind;
use protocol::state::HeadState;
use records::copied::Copied;
use records::names::Names;
use register::perform;
use site::site::Site;
use std::fmt::Debug;
use std::process::Abort;
use std::test::Fail;
use tables::head::Head;
use tables::mail::MailPlace;

pub const START: Plan = Plan {
    cycle: 90,
    offset: 10,
    green: 40,
};

pub const NEXT: Plan = Plan {
    cycle: 100,
    offset: 20,
    green: 50,
};

pub const LAWLESS: Plan = Plan {
    cycle: 90,
    offset: 90,
    green: 40,
};

// A place of a head before a site is made.
pub(crate) fn blank_head<V: Value>(value: V) -> Head<V> {
    Head {
        name: 77,
        state: HeadState::Stranded,
        copy: Copied { stamp: 5, value },
        swap_tick: 6,
        inquiry_tick: 7,
        best: Copied { stamp: 8, value },
        held: Names {
            list: [9; 64],
            count: 3,
        },
    }
}

// A place of the mail that holds an item.
pub(crate) fn item(
    kind: MailKind,
    sender: u32,
    receiver: u32,
    sent: u32,
    stamp: i64,
) -> MailPlace<Plan> {
    MailPlace {
        kind: Some(kind),
        sender,
        receiver,
        sent,
        copy: Copied { stamp, value: NEXT },
    }
}

// A place of the mail before a site is made.
pub(crate) fn blank_place<V: Value>(value: V) -> MailPlace<V> {
    MailPlace {
        kind: None,
        sender: 0,
        receiver: 0,
        sent: 0,
        copy: Copied { stamp: -1, value },
    }
}

// A head in this state, with this stamp and no other thing.
pub(crate) fn head(name: u32, state: HeadState, stamp: i64) -> Head<Plan> {
    Head {
        name,
        state,
        copy: Copied {
            stamp,
            value: START,
        },
        swap_tick: 0,
        inquiry_tick: 0,
        best: Copied {
            stamp: -1,
            value: START,
        },
        held: Names::new(),
    }
}

// The four heads of a new site.
pub(crate) fn new_heads() -> [Head<Plan>; 4] {
    [1, 2, 3, 4].map(|name| head(name, HeadState::Active, 0))
}

// A site of four heads, delay limit 1, one swap in a tick.
pub(crate) fn new_site() -> Result<Site, Fail> {
    let mut heads = [blank_head(LAWLESS); 4];
    let mut mail = [blank_place(START); 16];
    Ok(Site::make(&mut heads, &mut mail, 1, 1, START)?)
}

// The number of a refusal; other answers have none.
fn number<V: Value>(a: &Answer<V>) -> Option<u32> {
    match a {
        Answer::Refused(why) => Some(u32::from(*why)),
        _ => None,
    }
}

// Asks one call after another, and holds each answer to the expected one.
pub(crate) fn play<V: Value + PartialEq + Debug, L: Log<V>>(
    rt: &impl Abort,
    site: &mut Site,
    heads: &mut [Head<V>],
    mail: &mut [MailPlace<V>],
    log: &mut L,
    table: &[(Call<V>, Answer<V>)],
) {
    for (call, expected) in table {
        assert_eq!(rt; perform(site, heads, mail, log, call), *expected);
    }
}

// A site and the tables that are lent to it.
#[derive(Clone, Copy, PartialEq, Eq, Debug)]
pub(crate) struct World<const HEADS: usize, const PLACES: usize> {
    pub site: Site,
    pub heads: [Head<Plan>; HEADS],
    pub mail: [MailPlace<Plan>; PLACES],
}

impl<const HEADS: usize, const PLACES: usize> World<HEADS, PLACES> {
    // Asks one call after another, and holds each answer to the expected one.
    pub(crate) fn play<L: Log<Plan>>(
        &mut self,
        rt: &impl Abort,
        log: &mut L,
        table: &[(Call<Plan>, Answer<Plan>)],
    ) {
        play(
            rt,
            &mut self.site,
            &mut self.heads,
            &mut self.mail,
            log,
            table,
        );
    }

    // Holds each call to the number of its refusal, after which everything is as it was.
    pub(crate) fn refused<L: Log<Plan>>(
        self,
        rt: &impl Abort,
        log: &mut L,
        table: &[(Call<Plan>, u32)],
    ) {
        let before = (log.count(), log.free());
        let mut after = self;
        for (call, expected) in table {
            let answer = perform(
                &mut after.site,
                &mut after.heads,
                &mut after.mail,
                log,
                call,
            );
            assert_eq!(rt; number(&answer), Some(*expected));
            assert_eq!(rt; after, self);
            assert_eq!(rt; (log.count(), log.free()), before);
        }
    }

    // How many items of this kind, sender and receiver are in the mail.
    pub(crate) fn count_of(&self, kind: MailKind, sender: u32, receiver: u32) -> usize {
        self.mail
            .iter()
            .filter(|p| p.kind == Some(kind) && p.sender == sender && p.receiver == receiver)
            .count()
    }

    // How many items are in the mail.
    pub(crate) fn count_all(&self) -> usize {
        self.mail.iter().filter(|p| p.kind.is_some()).count()
    }
}

pub(crate) fn bring<V: Value>(kind: MailKind, sender: u32, receiver: u32) -> Call<V> {
    Call::Bring {
        kind,
        sender,
        receiver,
    }
}
