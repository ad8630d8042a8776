// The stages of the day. A stage that goes another way ends the day.
use crate::day::Day;
use anyhow::{Context, bail};
use passes::swapping::Leaving;
use passes::{Member, Newcomer, Refused, Writer};
use plans::Plan;
use protocol::answer::Answer;
use protocol::call::Call;
use protocol::kind::MailKind;

// The heads that stay all day.
const OTHERS: [u32; 3] = [1, 3, 4];

// The plan that is written.
const NEXT: Plan = Plan {
    cycle: 100,
    offset: 20,
    green: 50,
};

// A head by its name, and the pass that it holds.
#[derive(Drop)]
pub struct Holder<P> {
    pub name: u32,
    pub pass: P,
}

impl Day<'_, '_> {
    // A newcomer takes the place of the old head, and gets its pass.
    pub(crate) fn swap_in(&mut self, old: u32) -> anyhow::Result<Holder<Newcomer>> {
        let leaving = self.admit(old)?;
        let name = leaving
            .pass
            .swap(&mut self.site, &mut self.heads, &mut self.mail)
            .ok()
            .context("no swap")?;
        self.tell(&Call::Swap { name: old }, &Answer::Swapped { name })?;
        self.admit(name)
    }

    fn admit(&self, name: u32) -> anyhow::Result<Holder<Newcomer>> {
        let pass = Newcomer::of(&self.site, &self.heads, &self.mail, name)
            .ok()
            .context("no newcomer")?;
        self.tell_done("newcomer", name)?;
        Ok(Holder { name, pass })
    }

    // The newcomer listens for a tick and inquires for two; then it is a member.
    pub(crate) fn learn(&mut self, newcomer: Holder<Newcomer>) -> anyhow::Result<Holder<Member>> {
        let listening = self.not_yet(newcomer)?;
        self.ask(Call::Tick)?;
        let Holder { name, pass } = self.not_yet(listening)?;
        for other in OTHERS {
            self.bring(MailKind::Inquiry, name, other)?;
        }
        for other in OTHERS {
            self.bring(MailKind::Reply, other, name)?;
        }
        self.ask(Call::Tick)?;
        self.ask(Call::Tick)?;
        let pass = pass
            .promote(&self.site, &self.heads, &self.mail)
            .ok()
            .context("no member")?;
        self.tell_done("promote", name)?;
        Ok(Holder { name, pass })
    }

    // A head that learns is no member yet, and keeps its pass.
    fn not_yet(&self, learner: Holder<Newcomer>) -> anyhow::Result<Holder<Newcomer>> {
        let Holder { name, pass } = learner;
        let Err(Refused { pass, why }) = pass.promote(&self.site, &self.heads, &self.mail) else {
            bail!("a member too early");
        };
        self.tell_refused("promote", name, why)?;
        Ok(Holder { name, pass })
    }

    // The member reads the plan.
    pub(crate) fn read(&mut self, member: &Holder<Member>) -> anyhow::Result<()> {
        let Holder { name, pass } = member;
        let (stamp, value) = pass
            .read(&self.site, &self.heads, &self.mail, &mut self.log)
            .ok()
            .context("no value")?;
        self.tell(&Call::Read { name: *name }, &Answer::Value { stamp, value })
    }

    // The member writes the next plan, and is a writer.
    pub(crate) fn write(&mut self, member: Holder<Member>) -> anyhow::Result<Holder<Writer>> {
        let Holder { name, pass } = member;
        let (pass, stamp) = pass
            .write(&mut self.site, &mut self.heads, &mut self.mail, NEXT)
            .ok()
            .context("no write")?;
        self.tell(
            &Call::Write { name, value: NEXT },
            &Answer::Written { stamp },
        )?;
        Ok(Holder { name, pass })
    }

    // The writer waits until its write is finished, and is a member again.
    pub(crate) fn finish(&mut self, writer: Holder<Writer>) -> anyhow::Result<Holder<Member>> {
        let Holder { name, pass } = self.not_finished(writer)?;
        for other in OTHERS {
            self.bring(MailKind::Write, name, other)?;
        }
        self.ask(Call::Tick)?;
        let pass = pass.finish(&self.site).ok().context("no end of the write")?;
        self.tell_done("finish", name)?;
        Ok(Holder { name, pass })
    }

    // A head whose write is under way is no member, and keeps its pass.
    fn not_finished(&self, writer: Holder<Writer>) -> anyhow::Result<Holder<Writer>> {
        let Holder { name, pass } = writer;
        let Err(Refused { pass, why }) = pass.finish(&self.site) else {
            bail!("finished too early");
        };
        self.tell_refused("finish", name, why)?;
        Ok(Holder { name, pass })
    }

    // The member leaves, and its pass with it.
    pub(crate) fn swap_out(&mut self, member: Holder<Member>) -> anyhow::Result<()> {
        let Holder { name, pass } = member;
        let next = pass
            .swap(&mut self.site, &mut self.heads, &mut self.mail)
            .ok()
            .context("no swap")?;
        self.tell(&Call::Swap { name }, &Answer::Swapped { name: next })
    }
}
