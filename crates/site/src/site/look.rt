// Look: a head's state and stamp.
ghost use Rattle.logs.specs.Meanings.{Meaning};
ghost use Rattle.protocol.specs.declared.call.Call.TheVariants.{Look};
ghost use Rattle.protocol.specs.Steps.{Step};
ghost use Rattle.site.specs.States.{state_of, seen_answer};

use crate::site::Site;
use acts::telling::copy_stamp;
use kinds::value::Value;
use protocol::refusal::Refusal;
use protocol::state::HeadState;
use tables::head::Head;
use tables::mail::MailPlace;

impl Site {
    // The state and the stamp of the head with this name.
    pub fn look<V: Value>(
        &self,
        heads: &[Head<V>],
        mail: &[MailPlace<V>],
        name: u32,
    ) -> Result<(HeadState, i64), Refusal>
        ensures { (m : Meaning V) → Step V.Value.lawful (state_of self.now heads.now mail.now m) (Look name) (seen_answer result) (state_of self.now heads.now mail.now m) }
    {
        let (_, h) = self.find_head(heads, mail, name)?;
        Ok((h.state, copy_stamp(h)))
    }
}
