// The site of the day, its calls by name, and the lines that it prints.
use plans::Plan;
use protocol::answer::Answer;
use protocol::call::Call;
use protocol::kind::MailKind;
use protocol::refusal::Refusal;
use register::perform;
use site::site::Site;
use sitelines::call_line;
use tables::head::Head;
use tables::mail::MailPlace;
use wordlog::log::WordLog;

#[derive(Drop)]
pub struct Day<'a, 'b> {
    pub rt: &'a HostRuntime,
    pub site: Site,
    pub heads: [Head<Plan>; 4],
    pub mail: [MailPlace<Plan>; 16],
    pub log: WordLog<'b, Plan>,
}

impl Day<'_, '_> {
    // Performs a call by name, and prints its line.
    pub(crate) fn ask(&mut self, call: Call<Plan>) -> anyhow::Result<()> {
        let answer = perform(
            &mut self.site,
            &mut self.heads,
            &mut self.mail,
            &mut self.log,
            &call,
        );
        self.tell(&call, &answer)
    }

    // Brings the item of this kind from the sender to the receiver.
    pub(crate) fn bring(
        &mut self,
        kind: MailKind,
        sender: u32,
        receiver: u32,
    ) -> anyhow::Result<()> {
        self.ask(Call::Bring {
            kind,
            sender,
            receiver,
        })
    }

    // Prints the line of a call, by name or by pass.
    pub(crate) fn tell(&self, call: &Call<Plan>, answer: &Answer<Plan>) -> anyhow::Result<()> {
        self.rt.println(call_line(self.rt.alloc(), call, answer)?)?;
        Ok(())
    }

    // Prints that the head has got the pass that it asked for.
    pub(crate) fn tell_done(&self, asked: &str, name: u32) -> anyhow::Result<()> {
        println!(self.rt; "{asked} {name} = ok")?;
        Ok(())
    }

    // Prints why the head has to wait for the pass that it asked for.
    pub(crate) fn tell_refused(&self, asked: &str, name: u32, why: Refusal) -> anyhow::Result<()> {
        println!(self.rt; "{asked} {name} ! {why}")?;
        Ok(())
    }
}
