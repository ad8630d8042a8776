// Write: an active head takes a new value and sends it to every other head.
ghost use Rattle.std.specs.Prelude.{◌≡◌, true, is_err};
ghost use Rattle.logs.specs.Meanings.{Meaning};
ghost use Rattle.protocol.specs.declared.call.Call.TheVariants.{Write};
ghost use Rattle.protocol.specs.Steps.{Step};
ghost use Rattle.protocol.specs.Write.{write_site};
ghost use Rattle.site.specs.States.{site_of, state_of, written_answer};

use crate::site::{Site, UnderWay};
use acts::writing::{write_copy, write_item};
use kinds::value::Value;
use mailing::passes::broadcast;
use protocol::refusal::Refusal;
use records::places::put;
use tables::head::Head;
use tables::mail::MailPlace;

impl Site {
    // The head with this name takes the value with the next stamp, which is the answer, and sends it to every other head.
    pub fn write<V: Value>(
        &mut self,
        heads: &mut [Head<V>],
        mail: &mut [MailPlace<V>],
        name: u32,
        value: V,
    ) -> Result<i64, Refusal>
        ensures step { (m : Meaning V) → Step V.Value.lawful (state_of self.old heads.old mail.old m) (Write name value) (written_answer result) (state_of self.new heads.new mail.new m) }
        ensures kept { is_err result ≡ true → (self.new ≡ self.old) × (heads.new ≡ heads.old) × (mail.new ≡ mail.old) }
    {
        let site = *self;
        let (i, h) = site.find_head(heads, mail, name)?;
        let writer = write_copy(h, value, site.under_way.is_some())?;
        broadcast(mail, write_item(writer, name, site.time), heads, i)?;
        put(heads, i, writer);
        *self = site.after_write(name);
        Ok(writer.copy.stamp)
    }

    // The site when the head with this name has begun to write.
    fn after_write(self, name: u32) -> Site
        ensures { site_of result ≡ write_site (site_of self) name }
    {
        let mut after = self;
        after.under_way = Some(UnderWay {
            writer: name,
            begin: self.time,
        });
        after
    }
}
