// How an item of mail is told.
use protocol::kind::MailKind;

#[derive(Clone, Copy, PartialEq, Eq, Debug)]
pub struct Label {
    pub kind: MailKind,
    pub sender: u32,
    pub receiver: u32,
}
