// The kinds of mail.
ghost use Rattle.std.specs.Prelude.{◌≡◌, Some};
ghost use Rattle.protocol.specs.Numbers.{kind_number};
ghost use Rattle.protocol.specs.Texts.{kind_text};

use std::fmt;

// A written copy, an inquiry for a copy, or a reply with a copy.
#[derive(Clone, Copy, PartialEq, Eq, Debug)]
pub enum MailKind {
    Write,
    Inquiry,
    Reply,
}

// The number of the call that brings an item of the kind.
impl From<MailKind> for u32 {
    ghost from_gives = { λ kind number. number ≡ kind_number kind };

    fn from(kind: MailKind) -> u32 {
        match kind {
            MailKind::Write => 12,
            MailKind::Inquiry => 13,
            MailKind::Reply => 14,
        }
    }
}

impl fmt::Display for MailKind {
    ghost output = { λ kind. Some (kind_text kind) };

    fn fmt<W: fmt::Write>(&self, f: &mut fmt::Formatter<W>) -> fmt::Result {
        f.write_str(match *self {
            MailKind::Write => "write",
            MailKind::Inquiry => "inquiry",
            MailKind::Reply => "reply",
        })
    }
}
