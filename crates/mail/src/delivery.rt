// Where an item is to be brought.
ghost use Rattle.std.specs.Prelude.{◌≡◌};
ghost use Rattle.protocol.specs.Heads.{is_named, holds_of};
ghost use Rattle.tables.specs.HeadPlaces.{head_of};
ghost use Rattle.tables.specs.FirstPlaces.{place_of, both_places};
ghost use Rattle.protocol.specs.Items.{is_told};
ghost use Rattle.tables.specs.MailPlaces.{item_of};

use heads::searches::has_name;
use records::label::Label;
use tables::head::Head;
use tables::mail::MailPlace;

// The place of the receiver, and that of the item with this label.
// One labelled search that yields both places by its break, by a rule of this project on the lent tables.
pub fn find_delivery<V: Copy>(
    heads: &[Head<V>],
    mail: &[MailPlace<V>],
    label: Label,
) -> Option<(usize, usize)>
    ensures { result ≡ both_places (place_of (λ h. is_named label.receiver (head_of h)) heads.now) (place_of (λ p. holds_of (is_told label.kind label.sender label.receiver) (item_of p)) mail.now) }
{
    'found: {
        for (i, h) in heads.iter().enumerate() {
            if has_name(*h, label.receiver) {
                for (k, p) in mail.iter().enumerate() {
                    if has_label(*p, label) {
                        break 'found Some((i, k));
                    }
                }
                break 'found None;
            }
        }
        None
    }
}

// Whether the item has this label.
fn has_label<V: Copy>(p: MailPlace<V>, label: Label) -> bool
    ensures { result ≡ holds_of (is_told label.kind label.sender label.receiver) (item_of p) }
{
    p.kind == Some(label.kind) && p.sender == label.sender && p.receiver == label.receiver
}
