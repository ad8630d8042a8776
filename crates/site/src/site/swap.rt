// Swap: a newcomer takes the place of a head.
ghost use Rattle.std.specs.Prelude.{◌≡◌, true, is_err};
ghost use Rattle.logs.specs.Meanings.{Meaning};
ghost use Rattle.protocol.specs.declared.call.Call.TheVariants.{Swap};
ghost use Rattle.protocol.specs.Steps.{Step};
ghost use Rattle.protocol.specs.Swap.{writing};
ghost use Rattle.site.specs.Checks.{AfterSwap};
ghost use Rattle.site.specs.States.{site_of, state_of, swapped_answer};

use crate::site::Site;
use heads::changes::newcomer;
use heads::places::forget_everywhere;
use kinds::value::Value;
use mailing::passes::drop_mail_with;
use protocol::refusal::Refusal;
use records::places::put;
use tables::head::Head;
use tables::mail::MailPlace;

// The highest name.
const LAST_NAME: u32 = 268_435_455;

impl Site {
    // Swaps the head with this name for a newcomer, and answers its name.
    pub fn swap<V: Value>(
        &mut self,
        heads: &mut [Head<V>],
        mail: &mut [MailPlace<V>],
        name: u32,
    ) -> Result<u32, Refusal>
        ensures step { (m : Meaning V) → Step V.Value.lawful (state_of self.old heads.old mail.old m) (Swap name) (swapped_answer result) (state_of self.new heads.new mail.new m) }
        ensures kept { is_err result ≡ true → (self.new ≡ self.old) × (heads.new ≡ heads.old) × (mail.new ≡ mail.old) }
    {
        let site = *self;
        let (i, h) = site.find_head(heads, mail, name)?;
        let after = site.after_swap(name)?;
        forget_everywhere(heads, name);
        put(heads, i, newcomer(h, site.next_name, site.time));
        drop_mail_with(mail, name);
        *self = after;
        Ok(site.next_name)
    }

    // The site when the head with this name is swapped, or why it is not.
    fn after_swap(self, name: u32) -> Result<Site, Refusal>
        ensures { AfterSwap self name result }
    {
        if self.is_writing(name) {
            return Err(Refusal::WritingHead);
        }
        if self.swap_limit <= self.swaps {
            return Err(Refusal::SwapLimit);
        }
        if LAST_NAME < self.next_name {
            return Err(Refusal::NamesUsedUp);
        }
        let mut after = self;
        after.swaps += 1;
        after.next_name += 1;
        Ok(after)
    }

    // Whether the write under way is that of this head.
    fn is_writing(self, name: u32) -> bool
        ensures { result ≡ writing name (site_of self) }
    {
        self.under_way.is_some_and(|write| write.writer == name)
    }
}
