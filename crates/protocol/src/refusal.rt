// Why a call is refused.
ghost use Rattle.std.specs.Prelude.{◌≡◌, Some, decimal};
ghost use Rattle.protocol.specs.Numbers.{refusal_number};
ghost use Rattle.protocol.specs.declared.refusal.Refusal.TheVariants.{Log};

use logs::entry::LogRefusal;
use std::fmt;

#[derive(Clone, Copy, PartialEq, Eq, Debug)]
pub enum Refusal {
    // make: the heads are none, or more than 64
    HeadCount,
    // make: the delay limit is outside 1 to 16
    DelayLimit,
    // make: so many swaps could leave a newcomer without a reply
    ChurnLimit,
    // make: fewer mail places than heads times heads
    MailPlaces,
    // make: the starting value is not lawful
    StartUnlawful,
    // the tables lent are not those of the site
    ForeignTables,
    // an item, a held name or a new stamp has no room
    NoRoom,
    // no head present has this name
    NoSuchHead,
    // the head is not active
    NotActive,
    // the swaps allowed in this tick were made
    SwapLimit,
    // the next name would be too high
    NamesUsedUp,
    // the head has a write under way
    WritingHead,
    // the value to be written is not lawful
    ValueUnlawful,
    // a write is under way
    WriteUnderWay,
    // no such item, or its receiver is not present
    NoSuchItem,
    // an item has to be brought before the clock moves on
    MailDue,
    // the time is at its end
    LastTick,
    // the log's own
    Log(LogRefusal),
}

// The number by which the refusal is told.
impl From<Refusal> for u32 {
    ghost from_gives = { λ why number. number ≡ refusal_number why };

    fn from(why: Refusal) -> u32 {
        match why {
            Refusal::HeadCount => 1,
            Refusal::DelayLimit => 2,
            Refusal::ChurnLimit => 3,
            Refusal::MailPlaces => 4,
            Refusal::StartUnlawful => 5,
            Refusal::ForeignTables => 6,
            Refusal::NoRoom => 7,
            Refusal::NoSuchHead => 11,
            Refusal::NotActive => 12,
            Refusal::SwapLimit => 13,
            Refusal::NamesUsedUp => 14,
            Refusal::WritingHead => 15,
            Refusal::ValueUnlawful => 16,
            Refusal::WriteUnderWay => 17,
            Refusal::NoSuchItem => 21,
            Refusal::MailDue => 22,
            Refusal::LastTick => 23,
            Refusal::Log(why) => u32::from(why),
        }
    }
}

impl From<LogRefusal> for Refusal {
    ghost from_gives = { λ why r. r ≡ Log why };

    fn from(why: LogRefusal) -> Refusal {
        Refusal::Log(why)
    }
}

// A refusal is told by its number.
impl fmt::Display for Refusal {
    ghost output = { λ why. Some (decimal (refusal_number why)) };

    fn fmt<W: fmt::Write>(&self, f: &mut fmt::Formatter<W>) -> fmt::Result {
        write!(f, "{}", u32::from(*self))
    }
}
