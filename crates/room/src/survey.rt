// The mail as it is before a tick.
ghost use Rattle.std.specs.Prelude.{◌<◌, ◌≤◌, ℕ, List, [], ◌++◌, length};
ghost use Rattle.protocol.specs.Items.{Item};
ghost use Rattle.tables.specs.MailPlaces.{item_of, with_item};
ghost use Rattle.room.specs.Counting.{Foresees, Surveyed};

use crate::forecast::Forecast;
use mail::item::is_due;
use protocol::kind::MailKind;
use records::clock::Clock;
use tables::head::Head;
use tables::mail::MailPlace;

// The mail by its counts, or else the place of the first item that has to be brought before the clock moves on from this time.
// One labelled search that breaks with that place, by a rule of this project on the lent tables.
pub(crate) fn survey<'a, V: Copy>(
    heads: &'a [Head<V>],
    mail: &[MailPlace<V>],
    clock: Clock,
) -> Result<Forecast<'a, V>, usize>
    requires { length heads.now ≤ 64 }
    ensures { Surveyed heads.now mail.now clock.delay clock.time result }
{
    let mut forecast = Forecast {
        heads,
        places: mail.len(),
        items: 0,
        replies: [0; 64],
    };
    'due: {
        for (i, p) in mail.iter().enumerate() {
            if is_due(*p, clock) {
                break 'due Err(i);
            }
            forecast.add_place(*p);
        }
        Ok(forecast)
    }
}

impl<V: Copy> Forecast<'_, V> {
    // What lies in this place of the mail.
    fn add_place(&mut self, p: MailPlace<V>)
        requires { self.old.items < self.old.places }
        ensures { (heads : List (Head V)) (places : ℕ) (is : List (Item V)) → Foresees heads places is self.old → Foresees heads places (is ++ with_item (item_of p) []) self.new }
    {
        match p.kind {
            Some(MailKind::Reply) => self.add_reply(p.receiver),
            Some(_) => self.items += 1,
            None => {}
        }
    }
}
