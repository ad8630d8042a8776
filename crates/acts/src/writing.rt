// A head that writes.
ghost use Rattle.std.specs.Prelude.{◌≡◌, ℕ, false, Some, nat_lt};
ghost use Rattle.protocol.specs.Numbers.{last_number};
ghost use Rattle.protocol.specs.Heads.{next_stamp};
ghost use Rattle.protocol.specs.Items.{write};
ghost use Rattle.tables.specs.HeadPlaces.{head_of};
ghost use Rattle.tables.specs.MailPlaces.{item_of, addressed};
ghost use Rattle.acts.specs.Writing.{Writes, Written};

use crate::telling::{copy_stamp, is_active};
use kinds::value::Value;
use mail::item::item_from;
use protocol::kind::MailKind;
use protocol::refusal::Refusal;
use records::copied::Copied;
use tables::head::Head;
use tables::mail::MailPlace;

// The highest stamp.
const LAST_STAMP: i64 = 268_435_455;

// The head with the value and the stamp after its own, or why it does not write; busy: a write is under way.
pub fn write_copy<V: Value>(h: Head<V>, value: V, busy: bool) -> Result<Head<V>, Refusal>
    ensures { Writes V.Value.lawful busy h value result }
{
    if !is_active(h.state) {
        return Err(Refusal::NotActive);
    }
    if !value.is_lawful() {
        return Err(Refusal::ValueUnlawful);
    }
    if busy {
        return Err(Refusal::WriteUnderWay);
    }
    if is_last(h) {
        return Err(Refusal::NoRoom);
    }
    Ok(written(h, value))
}

// Whether the stamp after the head's own would be too high.
fn is_last<V: Copy>(h: Head<V>) -> bool
    ensures { result ≡ nat_lt last_number (next_stamp (head_of h).copy) }
{
    LAST_STAMP <= h.copy.stamp
}

// The head with the value and the stamp after its own; the first stamp where it has no copy.
fn written<V: Copy>(h: Head<V>, value: V) -> Head<V>
    requires { nat_lt last_number (next_stamp (head_of h).copy) ≡ false }
    ensures { Written h value result }
{
    let stamp = copy_stamp(h) + 1;
    Head {
        copy: Copied { stamp, value },
        ..h
    }
}

// The WRITE by which the head with this name sends its copy; whom it goes to is told for each receiver.
pub fn write_item<V: Copy>(h: Head<V>, name: u32, time: u32) -> MailPlace<V>
    ensures { (b : ℕ) → item_of (addressed result b) ≡ Some (write name b time (head_of h).copy) }
{
    item_from(MailKind::Write, name, h.copy, time)
}
