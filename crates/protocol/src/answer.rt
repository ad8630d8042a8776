// What a site answers.
ghost use Rattle.protocol.specs.Texts.{answer_output};

use crate::refusal::Refusal;
use crate::state::HeadState;
use std::fmt;
use std::fmt::Display;

// The new name; stamp and value; the stamp; done; the new time and how many heads turned active; state and stamp; or why not.
// One case for each answer, and no Result: the law takes every call with its answer, refused or not, and goes by the cases.
#[derive(Clone, Copy, PartialEq, Eq, Debug)]
pub enum Answer<V> {
    Swapped { name: u32 },
    Value { stamp: i64, value: V },
    Written { stamp: i64 },
    Brought,
    Ticked { time: u32, turned: u32 },
    Seen { state: HeadState, stamp: i64 },
    Refused(Refusal),
}

// What was answered behind `=`, or the refusal behind `!`.
impl<V: Display> Display for Answer<V> {
    ghost output = { answer_output V.output };

    fn fmt<W: fmt::Write>(&self, f: &mut fmt::Formatter<W>) -> fmt::Result {
        match self {
            Answer::Swapped { name } => write!(f, "= {name}"),
            Answer::Value { stamp, value } => write!(f, "= {stamp} {value}"),
            Answer::Written { stamp } => write!(f, "= {stamp}"),
            Answer::Brought => f.write_str("= ok"),
            Answer::Ticked { time, turned } => write!(f, "= {time} {turned}"),
            Answer::Seen { state, stamp } => write!(f, "= {state} {stamp}"),
            Answer::Refused(why) => write!(f, "! {why}"),
        }
    }
}
