// Sites and calls by their words, and the first bad word.
use plans::Plan;
use protocol::call::Call;
use protocol::kind::MailKind;
use script::{BadWord, Opening, Script};
use std::test::Fail;

const SITE: [u32; 6] = [4, 1, 1, 0x4000_005a, 0x4000_000a, 0x4000_0028];

// Whether the six words make a site, or the first bad word.
fn opened(words: &[u32]) -> Result<(), BadWord> {
    Script::open(words, false).map(|_| ())
}

#[test]
fn the_first_six_words(rt: HostRuntime) -> Result<(), Fail> {
    for length in 0..6 {
        assert_eq!(rt; opened(&SITE[0..length]), Err(BadWord { index: length }));
    }
    assert_eq!(rt; opened(&SITE), Ok(()));
    for i in 0..6 {
        let mut words = SITE;
        words[i] = 0x5000_0000;
        assert_eq!(rt; opened(&words), Err(BadWord { index: i }));
    }
    let start = Plan {
        cycle: 90,
        offset: 10,
        green: 40,
    };
    let (opening, _) = Script::open(&SITE, false)?;
    assert_eq!(rt;
        opening,
        Opening {
            heads: 4,
            delay: 1,
            swap_limit: 1,
            start,
        }
    );
    Ok(())
}

// The words of a site and four more.
fn after_site(more: [u32; 4]) -> [u32; 10] {
    let [a, b, c, d, e, f] = SITE;
    let [g, h, i, j] = more;
    [a, b, c, d, e, f, g, h, i, j]
}

// The call behind n others, no call at the end, or the first bad word.
fn call_behind(n: usize, words: &[u32], short: bool) -> Result<Option<Call<Plan>>, BadWord> {
    let (_, mut script) = Script::open(words, short)?;
    for _ in 0..n {
        script.next()?;
    }
    script.next()
}

// Each row: the words of the first call, and the call or the index of the bad word.
#[test]
fn calls_by_their_words(rt: HostRuntime) {
    let value = Plan {
        cycle: 100,
        offset: 20,
        green: 50,
    };
    let table = [
        ([0x9000_0002, 0, 0, 0], Ok(Some(Call::Swap { name: 2 }))),
        (
            [0xafff_ffff, 0, 0, 0],
            Ok(Some(Call::Read { name: 0x0fff_ffff })),
        ),
        (
            [0xb000_0001, 0x4000_0064, 0x4000_0014, 0x4000_0032],
            Ok(Some(Call::Write { name: 1, value })),
        ),
        (
            [0xb000_0001, 0x4000_0064, 0x5000_0014, 0x4000_0032],
            Err(BadWord { index: 8 }),
        ),
        (
            [0xc000_0001, 0x2000_0003, 0, 0],
            Ok(Some(Call::Bring {
                kind: MailKind::Write,
                sender: 1,
                receiver: 3,
            })),
        ),
        (
            [0xd000_0005, 0x2000_0001, 0, 0],
            Ok(Some(Call::Bring {
                kind: MailKind::Inquiry,
                sender: 5,
                receiver: 1,
            })),
        ),
        (
            [0xe000_0001, 0x2000_0005, 0, 0],
            Ok(Some(Call::Bring {
                kind: MailKind::Reply,
                sender: 1,
                receiver: 5,
            })),
        ),
        ([0xe000_0001, 0x3000_0005, 0, 0], Err(BadWord { index: 7 })),
        ([0xf000_0000, 0, 0, 0], Ok(Some(Call::Tick))),
        ([0xf000_0001, 0, 0, 0], Err(BadWord { index: 6 })),
        ([0x8000_0001, 0, 0, 0], Err(BadWord { index: 6 })),
    ];
    for (words, expected) in table {
        assert_eq!(rt; call_behind(0, &after_site(words), false), expected);
    }
}

#[test]
fn the_end_and_what_is_cut(rt: HostRuntime) {
    assert_eq!(rt; call_behind(0, &SITE, false), Ok(None));
    assert_eq!(rt; call_behind(0, &SITE, true), Err(BadWord { index: 6 }));
    let write = after_site([0xb000_0001, 0x4000_0064, 0, 0]);
    assert_eq!(rt;
        call_behind(0, &write[0..7], false),
        Err(BadWord { index: 7 })
    );
    assert_eq!(rt;
        call_behind(0, &write[0..8], true),
        Err(BadWord { index: 8 })
    );
    let tick = after_site([0xf000_0000, 0xc000_0001, 0, 0]);
    assert_eq!(rt;
        call_behind(1, &tick[0..8], false),
        Err(BadWord { index: 8 })
    );
}
