// What a site can be asked.
ghost use Rattle.protocol.specs.Texts.{call_output};

use crate::kind::MailKind;
use std::fmt;
use std::fmt::Display;

#[derive(Clone, Copy, PartialEq, Eq, Debug)]
pub enum Call<V> {
    Swap {
        name: u32,
    },
    Read {
        name: u32,
    },
    Write {
        name: u32,
        value: V,
    },
    Bring {
        kind: MailKind,
        sender: u32,
        receiver: u32,
    },
    Tick,
    Look {
        name: u32,
    },
}

// The call by its name, and what it is asked with.
impl<V: Display> Display for Call<V> {
    ghost output = { call_output V.output };

    fn fmt<W: fmt::Write>(&self, f: &mut fmt::Formatter<W>) -> fmt::Result {
        match self {
            Call::Swap { name } => write!(f, "swap {name}"),
            Call::Read { name } => write!(f, "read {name}"),
            Call::Write { name, value } => write!(f, "write {name} {value}"),
            Call::Bring {
                kind,
                sender,
                receiver,
            } => write!(f, "bring-{kind} {sender} {receiver}"),
            Call::Tick => f.write_str("tick"),
            Call::Look { name } => write!(f, "look {name}"),
        }
    }
}
