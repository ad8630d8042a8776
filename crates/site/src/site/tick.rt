// Tick: the clock moves on.
ghost use Rattle.std.specs.Prelude.{◌≡◌, ◌<◌, true, is_err};
ghost use Rattle.logs.specs.Meanings.{Meaning};
ghost use Rattle.protocol.specs.declared.call.Call.TheVariants.{Tick};
ghost use Rattle.protocol.specs.Numbers.{last_tick};
ghost use Rattle.protocol.specs.Steps.{Step};
ghost use Rattle.protocol.specs.Tick.{tick_site};
ghost use Rattle.site.specs.Checks.{AfterTick};
ghost use Rattle.site.specs.States.{site_of, state_of, ticked_answer};

use crate::site::Site;
use kinds::value::Value;
use protocol::refusal::Refusal;
use room::tick::foresee;
use tables::head::Head;
use tables::mail::MailPlace;
use turning::activity::activations;
use turns::turn_heads;

impl Site {
    // Moves the clock on by a tick, in which every head takes its turn, and answers the new time and how many heads turned active.
    pub fn tick<V: Value>(
        &mut self,
        heads: &mut [Head<V>],
        mail: &mut [MailPlace<V>],
    ) -> Result<(u32, u32), Refusal>
        ensures step { (m : Meaning V) → Step V.Value.lawful (state_of self.old heads.old mail.old m) Tick (ticked_answer result) (state_of self.new heads.new mail.new m) }
        ensures kept { is_err result ≡ true → (self.new ≡ self.old) × (heads.new ≡ heads.old) × (mail.new ≡ mail.old) }
    {
        let site = *self;
        let after = site.after_tick(heads, mail)?;
        let clock = after.clock();
        // There are no more than 64 heads, so the cast keeps the count.
        let turned = activations(heads, clock) as u32;
        turn_heads(heads, mail, clock);
        *self = after;
        Ok((after.time, turned))
    }

    // The site when the clock has moved on, or why it does not.
    fn after_tick<V: Copy>(self, heads: &[Head<V>], mail: &[MailPlace<V>]) -> Result<Site, Refusal>
        ensures { AfterTick self heads.now mail.now result }
    {
        self.check_tables(heads.len(), mail.len())?;
        foresee(heads, mail, self.clock())?;
        Ok(self.moved_on())
    }

    // The site a tick later. Its swaps count from 0 again, and a write that is due is finished.
    fn moved_on(self) -> Site
        requires { self.time < last_tick }
        ensures { site_of result ≡ tick_site (site_of self) }
    {
        let mut after = self;
        after.time += 1;
        after.swaps = 0;
        let clock = after.clock();
        after.under_way = self
            .under_way
            .filter(|write| !clock.is_after(1, write.begin));
        after
    }
}
