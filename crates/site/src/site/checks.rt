// The checks that come first.
ghost use Rattle.std.specs.Prelude.{◌≡◌};
ghost use Rattle.records.specs.Passing.{Passes};
ghost use Rattle.site.specs.Checks.{tables_refusal, FindsHead, FindsItem};

use crate::site::Site;
use heads::searches::find;
use mail::delivery::find_delivery;
use protocol::refusal::Refusal;
use records::clock::Clock;
use records::label::Label;
use tables::head::Head;
use tables::mail::MailPlace;

impl Site {
    // The delay limit and the time.
    pub(crate) fn clock(self) -> Clock
        ensures { result ≡ record { delay = self.delay; time = self.time } }
    {
        Clock {
            delay: self.delay,
            time: self.time,
        }
    }

    // Whether tables of so many places are those of the site, or why not.
    pub(crate) fn check_tables(self, heads: usize, mail: usize) -> Result<(), Refusal>
        ensures { Passes (tables_refusal self heads mail) result }
    {
        if heads != self.size || mail < self.size * self.size {
            return Err(Refusal::ForeignTables);
        }
        Ok(())
    }

    // The place of the head with this name and the head, or why there is none.
    pub(crate) fn find_head<V: Copy>(
        self,
        heads: &[Head<V>],
        mail: &[MailPlace<V>],
        name: u32,
    ) -> Result<(usize, Head<V>), Refusal>
        ensures { FindsHead self heads.now mail.now name result }
    {
        self.check_tables(heads.len(), mail.len())?;
        match find(heads, name) {
            None => Err(Refusal::NoSuchHead),
            Some(i) => Ok((i, heads[i])),
        }
    }

    // The place of the receiver and the head, and the place of the item and what lies there; or why there are none.
    pub(crate) fn find_item<V: Copy>(
        self,
        heads: &[Head<V>],
        mail: &[MailPlace<V>],
        label: Label,
    ) -> Result<(usize, Head<V>, usize, MailPlace<V>), Refusal>
        ensures { FindsItem self heads.now mail.now label.kind label.sender label.receiver result }
    {
        self.check_tables(heads.len(), mail.len())?;
        match find_delivery(heads, mail, label) {
            None => Err(Refusal::NoSuchItem),
            Some((i, k)) => Ok((i, heads[i], k, mail[k])),
        }
    }
}
