// A place of the mail: the tests of its item, which an empty place does not pass, and the places that are made from it.
ghost use Rattle.std.specs.Prelude.{◌≡◌};
ghost use Rattle.protocol.specs.Heads.{holds_of};
ghost use Rattle.protocol.specs.Items.{is_due, is_reply_to, goes_with};
ghost use Rattle.tables.specs.MailPlaces.{item_of, is_empty, addressed};
ghost use Rattle.tables.specs.Passes.{without_item};
ghost use Rattle.mail.specs.Sending.{place_from};

use protocol::kind::MailKind;
use records::clock::Clock;
use records::copied::Copied;
use tables::mail::MailPlace;

// Whether the place is empty.
pub fn is_empty<V: Copy>(p: MailPlace<V>) -> bool
    ensures { result ≡ is_empty p }
{
    p.kind.is_none()
}

// Whether the item has to be brought before the clock moves on.
pub fn is_due<V: Copy>(p: MailPlace<V>, clock: Clock) -> bool
    ensures { result ≡ holds_of (is_due clock.delay clock.time) (item_of p) }
{
    p.kind.is_some() && clock.is_last_for(p.sent)
}

// Whether the item is a REPLY to this name.
pub fn is_reply_to<V: Copy>(p: MailPlace<V>, name: u32) -> bool
    ensures { result ≡ holds_of (is_reply_to name) (item_of p) }
{
    p.kind == Some(MailKind::Reply) && p.receiver == name
}

// Whether the item goes when the head with this name goes: mail to it, or its INQUIRY.
pub fn goes_with<V: Copy>(p: MailPlace<V>, name: u32) -> bool
    ensures { result ≡ holds_of (goes_with name) (item_of p) }
{
    match p.kind {
        None => false,
        Some(MailKind::Inquiry) => p.receiver == name || p.sender == name,
        Some(MailKind::Write | MailKind::Reply) => p.receiver == name,
    }
}

// The place when its item is gone.
pub fn emptied<V: Copy>(p: MailPlace<V>) -> MailPlace<V>
    ensures { result ≡ without_item p }
{
    MailPlace { kind: None, ..p }
}

// The same item, to this receiver.
pub fn to<V: Copy>(item: MailPlace<V>, receiver: u32) -> MailPlace<V>
    ensures { result ≡ addressed item receiver }
{
    MailPlace { receiver, ..item }
}

// The item of this kind that carries the sender's copy; whom it goes to is filled in for each receiver.
pub fn item_from<V: Copy>(kind: MailKind, sender: u32, copy: Copied<V>, sent: u32) -> MailPlace<V>
    ensures { result ≡ place_from kind sender copy sent }
{
    MailPlace {
        kind: Some(kind),
        sender,
        receiver: sender,
        sent,
        copy,
    }
}
