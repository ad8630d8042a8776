// Which call a word of a kind begins.
ghost use Rattle.std.specs.Prelude.{◌≡◌};
ghost use Rattle.script.specs.CallKinds.{call_kind};

use protocol::kind::MailKind;

#[derive(Clone, Copy, PartialEq, Eq, Debug)]
pub enum CallKind {
    Swap,
    Read,
    Write,
    Bring(MailKind),
    Tick,
}

// A kind that begins no call.
#[derive(Clone, Copy, PartialEq, Eq, Debug)]
pub struct NoCall {
    pub kind: u32,
}

impl TryFrom<u32> for CallKind {
    type Error = NoCall;

    ghost try_from_gives = { λ kind told. told ≡ call_kind kind };

    fn try_from(kind: u32) -> Result<Self, NoCall> {
        match kind {
            9 => Ok(CallKind::Swap),
            10 => Ok(CallKind::Read),
            11 => Ok(CallKind::Write),
            12 => Ok(CallKind::Bring(MailKind::Write)),
            13 => Ok(CallKind::Bring(MailKind::Inquiry)),
            14 => Ok(CallKind::Bring(MailKind::Reply)),
            15 => Ok(CallKind::Tick),
            _ => Err(NoCall { kind }),
        }
    }
}
