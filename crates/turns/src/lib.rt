// The turns of all heads in a tick, in the order of their places.
#![tactic(auto)]

ghost use Rattle.std.specs.Prelude.{◌≡◌, suc, ◌<◌, ◌≤◌, List, [], map, length, take, drop, Some, slice_index_or, slice_set};
ghost use Rattle.std.specs.List.{remove};
ghost use Rattle.std.specs.List.Sorted.{IsPermutation};
ghost use Rattle.protocol.specs.Items.{Item, inquiry, put, to_each};
ghost use Rattle.protocol.specs.Tick.{turn as turn_told, turned as turned_told, turned_by, turn_mail, turns_mail};
ghost use Rattle.tables.specs.HeadPlaces.{head_of, heads_of};
ghost use Rattle.tables.specs.MailPlaces.{items_of};
ghost use Rattle.tables.specs.Turns.{turn_of};

use mail::item::item_from;
use mailing::passes::{answer, broadcast};
use protocol::kind::MailKind;
use records::clock::Clock;
use records::places::put;
use tables::head::Head;
use tables::mail::MailPlace;
use tables::turn::Turn;
use turning::inquirers::inquirers;
use turning::turn::{turn_at, turned};

// Every head takes its turn in the tick that makes the time this one. The mail has to have room for what is sent.
pub fn turn_heads<V: Copy>(heads: &mut [Head<V>], mail: &mut [MailPlace<V>], clock: Clock)
    ensures heads { heads_of heads.new ≡ map (turned_told clock.delay clock.time) (heads_of heads.old) }
    ensures mail { (items : List (Item V)) → length heads.old ≤ 64 → turns_mail (length mail.old) clock.delay clock.time [] (heads_of heads.old) (items_of mail.old) ≡ Some items → IsPermutation (items_of mail.new) items }
{
    // a turn alters one head and looks at all of them, so no place is lent by itself
    for i in 0..heads.len() {
        take_turn(heads, mail, i, clock);
    }
}

// The head in this place takes its turn.
fn take_turn<V: Copy>(heads: &mut [Head<V>], mail: &mut [MailPlace<V>], i: usize, clock: Clock)
    requires inside { i < length heads.old }
    ensures heads { (h : Head V) → h ≡ slice_index_or heads.old i h → heads_of heads.new ≡ slice_set (heads_of heads.old) i (turned_told clock.delay clock.time (head_of h)) }
    ensures mail { (h : Head V) (items : List (Item V)) → h ≡ slice_index_or heads.old i h → length heads.old ≤ 64 → turn_mail (length mail.old) clock.time (take i (heads_of heads.old)) (head_of h) (drop (suc i) (heads_of heads.old)) (items_of mail.old) (turn_told clock.delay clock.time (head_of h)) ≡ Some items → IsPermutation (items_of mail.new) items }
{
    let h = heads[i];
    let turn = turn_at(&h, clock);
    put(heads, i, turned(h, turn, clock.time));
    send_in_turn(heads, mail, i, h, turn, clock.time);
}

// What the turn of the head in this place sends and drops, when the head has turned; before, it was this one.
fn send_in_turn<V: Copy>(
    heads: &[Head<V>],
    mail: &mut [MailPlace<V>],
    i: usize,
    h: Head<V>,
    turn: Turn<V>,
    time: u32,
)
    requires inside { i < length heads.now }
    requires turned { (d : Head V) → head_of (slice_index_or heads.now i d) ≡ turned_by time (turn_of turn) (head_of h) }
    ensures { (items : List (Item V)) → length heads.now ≤ 64 → turn_mail (length mail.old) time (take i (heads_of heads.now)) (head_of h) (drop (suc i) (heads_of heads.now)) (items_of mail.old) (turn_of turn) ≡ Some items → IsPermutation (items_of mail.new) items }
{
    match turn {
        Turn::Activate(copy) if copy.is_there() => {
            let reply = item_from(MailKind::Reply, h.name, copy, time);
            answer(mail, h.name, reply, inquirers(h, heads).as_slice());
        }
        Turn::Rest | Turn::Activate(_) => {}
        Turn::Inquire => inquire(heads, mail, i, h, time),
        Turn::Strand => {
            let reply = item_from(MailKind::Reply, h.name, h.copy, time);
            answer(mail, h.name, reply, &[]);
        }
    }
}

// Sends an INQUIRY to every head but the one in this place.
fn inquire<V: Copy>(heads: &[Head<V>], mail: &mut [MailPlace<V>], i: usize, h: Head<V>, time: u32)
    ensures { (items : List (Item V)) → length heads.now ≤ 64 → put (length mail.old) (items_of mail.old) (to_each (λ b. inquiry h.name b time) (remove (heads_of heads.now) i)) ≡ Some items → IsPermutation (items_of mail.new) items }
{
    let item = item_from(MailKind::Inquiry, h.name, h.copy.cleared(), time);
    // the mail has room, or the tick would have been refused
    let _ = broadcast(mail, item, heads, i);
}
