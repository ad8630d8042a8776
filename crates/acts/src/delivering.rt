// An item that reaches its receiver.
ghost use Rattle.std.specs.Prelude.{◌≡◌, false, [], ◌∷◌, Some};
ghost use Rattle.protocol.specs.Bring.{bring_answers};
ghost use Rattle.tables.specs.HeadPlaces.{head_of};
ghost use Rattle.tables.specs.MailPlaces.{item_of, items_of};
ghost use Rattle.acts.specs.Delivering.{Delivers, overfills, received_from};

use crate::telling::is_active;
use heads::changes::{hold, receive_reply, receive_write};
use mail::item::{emptied, item_from, to};
use protocol::kind::MailKind;
use protocol::refusal::Refusal;
use tables::head::Head;
use tables::mail::MailPlace;

// The head and the place when the item has reached the head: its answer lies there, or nothing. Refused where the head would hold a 65th name.
pub fn deliver<V: Copy>(
    h: Head<V>,
    p: MailPlace<V>,
    time: u32,
) -> Result<(Head<V>, MailPlace<V>), Refusal>
    ensures { Delivers time (item_of p) (head_of h) result }
{
    if is_too_many(&h, p) {
        return Err(Refusal::NoRoom);
    }
    Ok((received(h, p), answering(h, p, time)))
}

// Whether the item would make the head hold a 65th name.
fn is_too_many<V: Copy>(h: &Head<V>, p: MailPlace<V>) -> bool
    ensures { result ≡ overfills (item_of p) (head_of h.now) }
{
    p.kind == Some(MailKind::Inquiry)
        && !is_active(h.state)
        && !h.held.contains(p.sender)
        && h.held.is_full()
}

// The head when the item has reached it.
fn received<V: Copy>(h: Head<V>, p: MailPlace<V>) -> Head<V>
    ensures { overfills (item_of p) (head_of h) ≡ false → head_of result ≡ received_from (item_of p) (head_of h) }
{
    match p.kind {
        Some(MailKind::Write) => receive_write(h, p.copy),
        Some(MailKind::Inquiry) if !is_active(h.state) => hold(h, p.sender),
        Some(MailKind::Reply) => receive_reply(h, p.copy),
        None | Some(MailKind::Inquiry) => h,
    }
}

// What lies in the place when its item has reached the head: the head's answer, or nothing.
fn answering<V: Copy>(h: Head<V>, p: MailPlace<V>, time: u32) -> MailPlace<V>
    ensures { items_of (result ∷ []) ≡ bring_answers time (Some (head_of h)) (item_of p) }
{
    if p.kind == Some(MailKind::Inquiry) && is_active(h.state) {
        to(item_from(MailKind::Reply, h.name, h.copy, time), p.sender)
    } else {
        emptied(p)
    }
}
