// What the pass of a newcomer allows.
ghost use Rattle.std.specs.Prelude.{◌≡◌, None};
ghost use Rattle.logs.specs.Meanings.{Meaning};
ghost use Rattle.protocol.specs.Look.{look_refusal};
ghost use Rattle.protocol.specs.Read.{read_checks};
ghost use Rattle.protocol.specs.Sites.{refused_by};
ghost use Rattle.site.specs.States.{state_of};
ghost use Rattle.passes.specs.Passes.{newcomer_by, promoted_by};

use crate::swapping::Leaving;
use crate::{Member, Newcomer, Refused};
use acts::telling::is_active;
use kinds::value::Value;
use protocol::refusal::Refusal;
use site::site::Site;
use tables::head::Head;
use tables::mail::MailPlace;

impl Newcomer {
    // A pass for the head with this name, which is present.
    pub fn of<V: Value>(
        site: &Site,
        heads: &[Head<V>],
        mail: &[MailPlace<V>],
        name: u32,
    ) -> Result<Newcomer, Refusal>
        ensures { (m : Meaning V) → result ≡ newcomer_by name (look_refusal (state_of site.now heads.now mail.now m) name) }
    {
        site.look(heads, mail, name)?;
        Ok(Newcomer { name })
    }

    // The head is a member when it is active.
    pub fn promote<V: Value>(
        self,
        site: &Site,
        heads: &[Head<V>],
        mail: &[MailPlace<V>],
    ) -> Result<Member, Refused<Newcomer>>
        ensures { (m : Meaning V) → result ≡ promoted_by self.name (refused_by (read_checks (state_of site.now heads.now mail.now m) self.name) None) }
    {
        // A match is plainer than `?` here, since two of its three ways hand the pass back.
        match site.look(heads, mail, self.name) {
            Ok((state, _)) if is_active(state) => Ok(Member { name: self.name }),
            Ok(_) => Err(Refused {
                pass: self,
                why: Refusal::NotActive,
            }),
            Err(why) => Err(Refused { pass: self, why }),
        }
    }
}

impl Leaving for Newcomer {
    ghost named = { λ p. p.name };

    fn name(&self) -> u32 {
        self.name
    }
}
