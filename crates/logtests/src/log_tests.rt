// Logs at their edges: refusals in their order, the last place, dirty memory, places that are not filled.
use closedlog::ClosedLog;
use kinds::value::{Loggable, Value};
use logs::entry::Entry;
use logs::log::Log;
use modes::Mode;
use plans::Plan;
use recordlog::RecordLog;
use wordlog::log::WordLog;

const PLAN: Plan = Plan {
    cycle: 90,
    offset: 10,
    green: 40,
};

fn plan_entry(tick: u32) -> Entry<Plan> {
    Entry {
        tick,
        name: 5,
        stamp: 1,
        value: PLAN,
    }
}

// A log's answer to an entry: it is taken, or the number of the refusal.
fn answer<V: Value, L: Log<V>>(log: &mut L, e: &Entry<V>) -> Result<(), u32> {
    log.add(e).map_err(u32::from)
}

// The tick of entry i, or the number of the refusal.
fn tick_at<V: Value, L: Log<V>>(log: &L, i: usize) -> Result<u32, u32> {
    log.get(i).map(|e| e.tick).map_err(u32::from)
}

#[test]
fn unsound_entries_are_refused_before_a_full_log(rt: HostRuntime) {
    let lawless = Plan {
        cycle: 90,
        offset: 90,
        green: 40,
    };
    let table = [
        (268_435_454, 1, 0, PLAN, Err(32)),
        (0, 268_435_455, 268_435_455, PLAN, Err(32)),
        (268_435_455, 1, 0, PLAN, Err(31)),
        (0, 0, 0, PLAN, Err(31)),
        (0, 268_435_456, 0, PLAN, Err(31)),
        (0, 1, -1, PLAN, Err(31)),
        (0, 1, 268_435_456, PLAN, Err(31)),
        (0, 1, 4_294_967_296, PLAN, Err(31)),
        (0, 1, 0, lawless, Err(31)),
    ];
    let mut words = [0u32; 5];
    let mut full = WordLog::<Plan>::open(&mut words);
    let mut closed = ClosedLog;
    for (tick, name, stamp, value, expected) in table {
        let e = Entry {
            tick,
            name,
            stamp,
            value,
        };
        assert_eq!(rt; answer(&mut full, &e), expected);
        assert_eq!(rt; answer(&mut closed, &e), expected);
    }
    assert_eq!(rt; (full.count(), full.free()), (0, 0));
}

#[test]
fn a_record_log_fills_its_last_place(rt: HostRuntime) {
    let mut places = [plan_entry(77); 2];
    {
        let mut log = RecordLog::open(&mut places);
        assert_eq!(rt; (log.count(), log.free()), (0, 2));
        assert_eq!(rt; tick_at(&log, 0), Err(33));
        assert_eq!(rt; answer(&mut log, &plan_entry(3)), Ok(()));
        assert_eq!(rt;
            (log.count(), log.free(), tick_at(&log, 0), tick_at(&log, 1)),
            (1, 1, Ok(3), Err(33))
        );
    }
    assert_eq!(rt; (places[0].tick, places[1].tick), (3, 77));
    let mut log = RecordLog::open(&mut places);
    assert_eq!(rt; answer(&mut log, &plan_entry(4)), Ok(()));
    assert_eq!(rt; answer(&mut log, &plan_entry(5)), Ok(()));
    assert_eq!(rt; answer(&mut log, &plan_entry(6)), Err(32));
    assert_eq!(rt;
        (log.count(), log.free(), tick_at(&log, 1), tick_at(&log, 2)),
        (2, 0, Ok(5), Err(33))
    );
}

// How many entries the first words of an array can take, at most 13.
fn entries_on<V: Loggable>(length: usize) -> usize {
    let mut words = [0u32; 13];
    let end = length.min(13);
    WordLog::<V>::open(&mut words[..end]).free()
}

// Free is the unused words by the size of an entry, rounded down.
#[test]
fn word_logs_by_their_words(rt: HostRuntime) {
    for (length, plans, modes) in [
        (0, 0, 0),
        (5, 0, 1),
        (6, 1, 1),
        (11, 1, 2),
        (12, 2, 2),
        (13, 2, 2),
    ] {
        assert_eq!(rt;
            (entries_on::<Plan>(length), entries_on::<Mode>(length)),
            (plans, modes)
        );
    }
}

#[test]
fn a_word_log_over_dirty_words(rt: HostRuntime) {
    let dirty = 0xdead_beef;
    let mut words = [dirty; 8];
    {
        let mut log = WordLog::<Plan>::open(&mut words);
        assert_eq!(rt;
            (log.count(), log.free(), tick_at(&log, 0)),
            (0, 1, Err(33))
        );
        let e = Entry {
            tick: 3,
            name: 5,
            stamp: 1,
            value: Plan {
                cycle: 100,
                offset: 20,
                green: 50,
            },
        };
        assert_eq!(rt; answer(&mut log, &e), Ok(()));
        assert_eq!(rt; answer(&mut log, &e), Err(32));
        assert_eq!(rt;
            (log.count(), log.free(), tick_at(&log, 0), tick_at(&log, 1)),
            (1, 0, Ok(3), Err(33))
        );
        assert_eq!(rt; log.filled_words().len(), 6);
    }
    assert_eq!(rt;
        words,
        [
            0x1000_0003,
            0x2000_0005,
            0x3000_0001,
            0x4000_0064,
            0x4000_0014,
            0x4000_0032,
            dirty,
            dirty,
        ]
    );
}

#[test]
fn a_mode_log_in_words(rt: HostRuntime) {
    let mut words = [0u32; 11];
    {
        let mut log = WordLog::<Mode>::open(&mut words);
        let first = Entry {
            tick: 0,
            name: 1,
            stamp: 268_435_455,
            value: Mode::Actuated { longest_green: 120 },
        };
        assert_eq!(rt; answer(&mut log, &first), Ok(()));
        let second = Entry {
            tick: 268_435_454,
            name: 268_435_455,
            stamp: 0,
            value: Mode::Held { last_tick: 7 },
        };
        assert_eq!(rt; answer(&mut log, &second), Ok(()));
        assert_eq!(rt; log.get(1), Ok(second));
    }
    assert_eq!(rt;
        words,
        [
            0x1000_0000,
            0x2000_0001,
            0x3fff_ffff,
            0x5000_0001,
            0x5000_0078,
            0x1fff_fffe,
            0x2fff_ffff,
            0x3000_0000,
            0x5000_0002,
            0x5000_0007,
            0,
        ]
    );
}
