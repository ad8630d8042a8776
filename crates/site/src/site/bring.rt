// Bring: an item reaches its receiver.
ghost use Rattle.std.specs.Prelude.{◌≡◌, true, is_err};
ghost use Rattle.logs.specs.Meanings.{Meaning};
ghost use Rattle.protocol.specs.declared.call.Call.TheVariants.{Bring};
ghost use Rattle.protocol.specs.Steps.{Step};
ghost use Rattle.site.specs.States.{state_of, brought_answer};

use crate::site::Site;
use acts::delivering::deliver;
use kinds::value::Value;
use protocol::refusal::Refusal;
use records::label::Label;
use records::places::put;
use tables::head::Head;
use tables::mail::MailPlace;

impl Site {
    // Takes the item with this label out of the mail and to its receiver.
    pub fn bring<V: Value>(
        &self,
        heads: &mut [Head<V>],
        mail: &mut [MailPlace<V>],
        label: Label,
    ) -> Result<(), Refusal>
        ensures step { (m : Meaning V) → Step V.Value.lawful (state_of self.now heads.old mail.old m) (Bring label.kind label.sender label.receiver) (brought_answer result) (state_of self.now heads.new mail.new m) }
        ensures kept { is_err result ≡ true → (heads.new ≡ heads.old) × (mail.new ≡ mail.old) }
    {
        let (i, h, k, p) = self.find_item(heads, mail, label)?;
        let (after, answer) = deliver(h, p, self.time)?;
        put(heads, i, after);
        put(mail, k, answer);
        Ok(())
    }
}
