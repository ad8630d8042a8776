// What happens to the mail in one pass over its places. New items lie in any places that are empty.
ghost use Rattle.std.specs.Prelude.{◌≡◌, ℕ, ◌+◌, ◌-◌, ◌<◌, ◌≤◌, true, [], ◌++◌, map, length, take, min, nat_le, is_ok, is_err, Some, None, Ok, Err};
ghost use Rattle.protocol.specs.declared.refusal.Refusal.TheVariants.{NoRoom};
ghost use Rattle.protocol.specs.Items.{is_reply_to, goes_with, dropping};
ghost use Rattle.records.specs.NameLists.{names_of};
ghost use Rattle.records.specs.declared.names.Names.{Names};
ghost use Rattle.tables.specs.MailPlaces.{items_of, addressed};
ghost use Rattle.tables.specs.Passes.{sent as sent_items, names_but};
ghost use Rattle.mailing.specs.EmptyPlaces.{empties_from};
ghost use Rattle.std.specs.List.Sorted.{IsPermutation};

use mail::item::{emptied, goes_with, is_empty, is_reply_to, to};
use protocol::refusal::Refusal;
use records::names::{MOST_NAMES, Names};
use records::places::put;
use tables::head::Head;
use tables::mail::MailPlace;

// Takes every item out of the mail.
pub fn take_out_all<V: Copy>(mail: &mut [MailPlace<V>])
    ensures { items_of mail.new ≡ [] }
{
    for p in mail.iter_mut() {
        p.kind = None;
    }
}

// Drops mail to this name, and its INQUIRY items.
pub fn drop_mail_with<V: Copy>(mail: &mut [MailPlace<V>], name: u32)
    ensures { items_of mail.new ≡ dropping (goes_with name) (items_of mail.old) }
{
    for p in mail.iter_mut() {
        if goes_with(*p, name) {
            *p = emptied(*p);
        }
    }
}

// Sends the item to every head but the one in this place, if each finds an empty place.
// Otherwise nothing is altered.
pub fn broadcast<V: Copy>(
    mail: &mut [MailPlace<V>],
    item: MailPlace<V>,
    heads: &[Head<V>],
    but: usize,
) -> Result<(), Refusal>
    ensures room { length heads.now ≤ 64 → is_ok result ≡ nat_le (length (items_of mail.old) + length (names_but but heads.now)) (length mail.old) }
    ensures sent { result ≡ Ok tt → IsPermutation (items_of mail.new) (items_of mail.old ++ items_of (map (addressed item) (names_but but heads.now))) }
    ensures refused { is_err result ≡ true → (result ≡ Err NoRoom) × (mail.new ≡ mail.old) }
{
    let receivers = names_of_others(heads, but).ok_or(Refusal::NoRoom)?;
    let names = receivers.as_slice();
    let mut places = [0; MOST_NAMES];
    if note_empty_places(mail, names.len(), &mut places) < names.len() {
        return Err(Refusal::NoRoom);
    }
    // by index, since no contract says what a `zip` of places and names goes through
    for (k, name) in names.iter().enumerate() {
        put(mail, places[k], to(item, *name));
    }
    Ok(())
}

// The names of all heads but the one in this place, where they are no more than 64.
fn names_of_others<V: Copy>(heads: &[Head<V>], but: usize) -> Option<Names>
    ensures names { (n : Names) → result ≡ Some n → names_of n ≡ names_but but heads.now }
    ensures many { result ≡ None → 64 < length (names_but but heads.now) }
{
    let mut names = Names::new();
    for (i, h) in heads.iter().enumerate() {
        if i != but {
            if names.is_full() {
                return None;
            }
            names.push(h.name);
        }
    }
    Some(names)
}

// Notes the first empty places, as many as are wanted, and answers how many they are.
// Places are noted by their index in an array with a count, since there is no heap, and an Option of such an array takes half as much time again in a small site.
fn note_empty_places<V: Copy>(
    mail: &[MailPlace<V>],
    wanted: usize,
    places: &mut [usize; MOST_NAMES],
) -> usize
    requires { wanted ≤ 64 }
    ensures places { take result places.new ≡ take wanted (empties_from 0 mail.now) }
    ensures count { result ≡ min wanted (length (empties_from 0 mail.now)) }
{
    let mut count = 0;
    for (i, p) in mail.iter().enumerate() {
        if count >= wanted {
            return count;
        }
        if is_empty(*p) {
            places[count] = i;
            count += 1;
        }
    }
    count
}

// Drops the REPLY items to this name, and sends the item to each of the names, as far as there are empty places.
pub fn answer<V: Copy>(mail: &mut [MailPlace<V>], name: u32, item: MailPlace<V>, names: &[u32])
    ensures { IsPermutation (items_of mail.new) (dropping (is_reply_to name) (items_of mail.old) ++ sent_items (length mail.old - length (dropping (is_reply_to name) (items_of mail.old))) item names.now) }
{
    let mut left = names.iter();
    for place in mail.iter_mut() {
        if is_reply_to(*place, name) {
            *place = emptied(*place);
        }
        if is_empty(*place)
            && let Some(name) = left.next()
        {
            *place = to(item, *name);
        }
    }
}
