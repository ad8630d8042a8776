// The reader on good, damaged and cut stretches.
use kinds::value::Loggable;
use logs::entry::Entry;
use logs::log::Log;
use modes::Mode;
use outcomes::logged::Logged;
use outcomes::recorded::Recorded;
use plans::Plan;
use reader::Reader;
use std::test::Fail;
use wordlog::log::WordLog;

// A plan entry, a mode entry and a plan entry.
const CARD: [u32; 17] = [
    0x1000_0003,
    0x2000_0005,
    0x3000_0001,
    0x4000_0064,
    0x4000_0014,
    0x4000_0032,
    0x1000_0004,
    0x2000_0006,
    0x3000_0002,
    0x5000_0001,
    0x5000_0078,
    0x1000_0007,
    0x2000_0008,
    0x3000_0000,
    0x4000_005a,
    0x4000_000a,
    0x4000_0028,
];

// What reading a stretch to its end, or up to a fault, gives: how many entries, and then the number, index and part of the fault.
type Outcome = (usize, Result<(), (u32, usize, Option<usize>)>);

// The loop counts by a range: the proof that a count kept beside a `while let` does not overflow did not close.
fn read_all(words: &[u32]) -> Outcome {
    let mut reader = Reader::new(words);
    for entries in 0..=words.len() {
        match reader.next() {
            Ok(Some(_)) => {}
            Ok(None) => return (entries, Ok(())),
            Err(fault) => return (entries, Err((fault.into(), fault.index(), fault.part()))),
        }
    }
    (usize::MAX, Ok(()))
}

#[test]
fn whole_and_cut_stretches(rt: HostRuntime) {
    let ends = [6, 11, 17];
    for length in 0..=CARD.len() {
        assert!(rt; length <= CARD.len());
        let entries = ends.iter().filter(|end| **end <= length).count();
        let whole = length == 0 || ends.contains(&length);
        let end = if whole {
            Ok(())
        } else {
            Err((42, length, None))
        };
        assert_eq!(rt; read_all(&CARD[..length]), (entries, end));
    }
}

// Each row: the index of the damaged word, what it is now, and then the entries before the fault, its number, index and part.
#[test]
fn damaged_words(rt: HostRuntime) {
    let table = [
        (0, 0x2000_0003, 0, 41, 0, None),
        (0, 0x0000_0003, 0, 41, 0, None),
        (0, 0x1fff_ffff, 0, 43, 0, None),
        (0, 0x2fff_ffff, 0, 41, 0, None),
        (1, 0x2000_0000, 0, 43, 1, None),
        (1, 0x3000_0000, 0, 41, 1, None),
        (2, 0x2000_0001, 0, 41, 2, None),
        (3, 0x6000_0064, 0, 41, 3, None),
        (3, 0x5000_0064, 0, 41, 4, None),
        (3, 0x4000_001d, 0, 44, 3, Some(0)),
        (4, 0x4000_0064, 0, 44, 4, Some(1)),
        (5, 0x4000_0060, 0, 44, 5, Some(2)),
        (5, 0x5000_0032, 0, 41, 5, None),
        (6, 0x1fff_ffff, 1, 43, 6, None),
        (7, 0x2000_0000, 1, 43, 7, None),
        (8, 0x4000_0002, 1, 41, 8, None),
        (9, 0x5000_0003, 1, 44, 9, Some(0)),
        (9, 0x4000_0001, 1, 41, 10, None),
        (10, 0x5000_0079, 1, 44, 10, Some(1)),
        (10, 0x4000_0078, 1, 41, 10, None),
        (11, 0xffff_ffff, 2, 41, 11, None),
        (14, 0x3000_005a, 2, 41, 14, None),
        (16, 0x4000_0056, 2, 44, 16, Some(2)),
    ];
    for (at, word, entries, number, index, part) in table {
        let mut words = CARD;
        assert!(rt; at < 17);
        words[at] = word;
        assert_eq!(rt; read_all(&words), (entries, Err((number, index, part))));
    }
}

// Where two faults meet, words are judged first to last, and the value after all words.
#[test]
fn the_first_fault_comes_first(rt: HostRuntime) {
    let mut words = CARD;
    words[3] = 0x4000_001d;
    words[5] = 0x5000_0032;
    assert_eq!(rt; read_all(&words), (0, Err((41, 5, None))));
    assert_eq!(rt; read_all(&words[0..5]), (0, Err((42, 5, None))));
    words[1] = 0x2000_0000;
    assert_eq!(rt; read_all(&words), (0, Err((43, 1, None))));
    assert_eq!(rt; read_all(&words[0..1]), (0, Err((42, 1, None))));
}

#[test]
fn after_a_fault_it_stays(rt: HostRuntime) -> Result<(), Fail> {
    let mut words = CARD;
    words[7] = 0x2000_0000;
    let mut reader = Reader::new(&words);
    assert!(rt; reader.next().is_ok());
    assert_eq!(rt; reader.position(), 6);
    for _ in 0..3 {
        let fault = reader.next().err().ok_or("a fault")?;
        assert_eq!(rt;
            (u32::from(fault), fault.index(), reader.position()),
            (43, 7, 6)
        );
    }
    Ok(())
}

#[test]
fn entries_and_their_words(rt: HostRuntime) {
    let mut reader = Reader::new(&CARD);
    let plan = Entry {
        tick: 3,
        name: 5,
        stamp: 1,
        value: Plan {
            cycle: 100,
            offset: 20,
            green: 50,
        },
    };
    let mode = Entry {
        tick: 4,
        name: 6,
        stamp: 2,
        value: Mode::Actuated { longest_green: 120 },
    };
    assert_eq!(rt;
        reader.next(),
        Ok(Some(Logged::Plan {
            entry: plan,
            words: &CARD[3..6],
        }))
    );
    assert_eq!(rt;
        reader.next(),
        Ok(Some(Logged::Mode {
            entry: mode,
            words: &CARD[9..11],
        }))
    );
}

// Whether reading a log's words gives these entries with their value words, and then the end.
fn reads_back<V: Recorded>(log: &WordLog<V>, entries: &[Entry<V>]) -> bool {
    let mut reader = Reader::of_log(log);
    let words = log.filled_words().chunks_exact(3 + V::WIDTH);
    for (entry, code) in entries.iter().zip(words) {
        if reader.next() != Ok(Some(V::logged(entry, &code[3..]))) {
            return false;
        }
    }
    log.count() == entries.len() && reader.next() == Ok(None)
}

#[test]
fn a_log_is_read_back(rt: HostRuntime) {
    let mut words = [0xffff_ffffu32; 13];
    let mut log = WordLog::<Plan>::open(&mut words);
    let value = Plan {
        cycle: 240,
        offset: 239,
        green: 235,
    };
    let entries = [
        Entry {
            tick: 268_435_454,
            name: 268_435_455,
            stamp: 268_435_455,
            value,
        },
        Entry {
            tick: 0,
            name: 1,
            stamp: 0,
            value,
        },
    ];
    for entry in &entries {
        assert_eq!(rt; log.add(entry), Ok(()));
    }
    assert!(rt; reads_back(&log, &entries));
}

#[test]
fn a_log_of_modes_is_read_back(rt: HostRuntime) {
    let mut words = [0xffff_ffffu32; 13];
    let mut log = WordLog::<Mode>::open(&mut words);
    let entries = [
        Entry {
            tick: 0,
            name: 1,
            stamp: 268_435_455,
            value: Mode::Actuated { longest_green: 120 },
        },
        Entry {
            tick: 268_435_454,
            name: 268_435_455,
            stamp: 0,
            value: Mode::Held { last_tick: 7 },
        },
    ];
    for entry in &entries {
        assert_eq!(rt; log.add(entry), Ok(()));
    }
    assert!(rt; reads_back(&log, &entries));
}
