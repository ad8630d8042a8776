// Make: its refusals in their order, its edges, and the new site.
use crate::worlds::{LAWLESS, START, blank_head, item};
use plans::Plan;
use protocol::kind::MailKind;
use protocol::state::HeadState;
use site::site::Site;
use std::process::Abort;
use tables::head::Head;
use tables::mail::MailPlace;

// Whether this is the head with the name in a new site.
fn is_new(h: &Head<Plan>, name: u32) -> bool {
    h.name == name
        && h.state == HeadState::Active
        && h.copy.stamp == 0
        && h.copy.value == START
        && h.best.stamp == -1
        && h.held.count == 0
}

// The next name of the site that is made, or the number of the refusal. The places are those of a new site then, and as they were otherwise.
fn make_over(
    rt: &impl Abort,
    heads: &mut [Head<Plan>],
    mail: &mut [MailPlace<Plan>],
    delay: u32,
    swap_limit: u32,
    start: Plan,
) -> Result<u32, u32> {
    match Site::make(heads, mail, delay, swap_limit, start) {
        Ok(s) => {
            assert_eq!(rt;
                (s.size, s.delay, s.swap_limit),
                (heads.len(), delay, swap_limit)
            );
            assert_eq!(rt; (s.time, s.swaps, s.under_way), (0, 0, None));
            assert!(rt; heads.iter().zip(1..).all(|(h, name)| is_new(h, name)));
            assert!(rt; mail.iter().all(|p| p.kind.is_none()));
            Ok(s.next_name)
        }
        Err(why) => {
            assert!(rt; heads.iter().all(|h| *h == blank_head(LAWLESS)));
            assert!(rt; mail.iter().all(|p| *p == item(MailKind::Reply, 1, 2, 0, 3)));
            Err(u32::from(why))
        }
    }
}

// Makes a site over the first of so many dirty places.
fn make_on(
    rt: &impl Abort,
    heads: usize,
    mail: usize,
    delay: u32,
    swap_limit: u32,
    start: Plan,
) -> Result<u32, u32> {
    let n = heads.min(65);
    let m = mail.min(4096);
    let mut lent = [blank_head(LAWLESS); 65];
    let mut places = [item(MailKind::Reply, 1, 2, 0, 3); 4096];
    make_over(
        rt,
        &mut lent[0..n],
        &mut places[0..m],
        delay,
        swap_limit,
        start,
    )
}

#[test]
fn sites_that_are_made_or_refused(rt: HostRuntime) {
    let table = [
        (0, 4096, 1, 0, START, Err(1)),
        (65, 4096, 1, 0, START, Err(1)),
        (64, 4096, 0, 1, START, Err(2)),
        (64, 4096, 17, 1, START, Err(2)),
        (1, 1, 17, 0, START, Err(2)),
        (3, 9, 1, 1, START, Err(3)),
        (48, 4096, 16, 1, START, Err(3)),
        (64, 4096, 16, 89_478_486, START, Err(3)),
        (64, 4096, 16, 4_294_967_295, START, Err(3)),
        (4, 15, 1, 1, START, Err(4)),
        (64, 4095, 16, 1, START, Err(4)),
        (4, 16, 1, 1, LAWLESS, Err(5)),
        (0, 0, 0, 9, LAWLESS, Err(1)),
        (65, 0, 17, 99, LAWLESS, Err(1)),
        (4, 15, 0, 9, LAWLESS, Err(2)),
        (4, 15, 17, 9, LAWLESS, Err(2)),
        (4, 15, 1, 2, LAWLESS, Err(3)),
        (4, 15, 1, 1, LAWLESS, Err(4)),
        (1, 1, 1, 0, START, Ok(2)),
        (4, 16, 1, 1, START, Ok(5)),
        (4, 17, 1, 1, START, Ok(5)),
        (49, 2401, 16, 1, START, Ok(50)),
        (64, 4096, 16, 1, START, Ok(65)),
        (64, 4096, 1, 21, START, Ok(65)),
    ];
    for (n, m, delay, swap_limit, start, expected) in table {
        assert_eq!(rt; make_on(&rt, n, m, delay, swap_limit, start), expected);
    }
}
