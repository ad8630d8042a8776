// A place of the mail.
use protocol::kind::MailKind;
use records::copied::Copied;

// An empty place has no kind, and then the rest means nothing. It is no Option of a record, since the mail is lent as a table of plain records whose empty places may hold anything.
#[derive(Clone, Copy, PartialEq, Eq, Debug)]
pub struct MailPlace<V> {
    pub kind: Option<MailKind>,
    pub sender: u32,
    pub receiver: u32,
    pub sent: u32,
    pub copy: Copied<V>,
}
