// What the pass of a member allows.
ghost use Rattle.std.specs.Prelude.{◌≡◌, true, is_some, is_err, None};
ghost use Rattle.logs.specs.Meanings.{Meaning};
ghost use Rattle.protocol.specs.declared.call.Call.TheVariants.{Read, Write};
ghost use Rattle.protocol.specs.Read.{read_checks};
ghost use Rattle.protocol.specs.Sites.{refused_by};
ghost use Rattle.protocol.specs.Steps.{Step};
ghost use Rattle.law.specs.Laws.{KeepsLaw};
ghost use Rattle.site.specs.States.{state_of, read_answer_of, written_answer};
ghost use Rattle.passes.specs.Passes.{stamp_written, WritesAs};

use crate::swapping::Leaving;
use crate::{Member, Refused, Writer};
use kinds::value::Value;
use logs::log::Log;
use protocol::refusal::Refusal;
use site::site::Site;
use tables::head::Head;
use tables::mail::MailPlace;

impl Member {
    // The stamp and the value of the head, which are logged first.
    pub fn read<V: Value, L: Log<V>>(
        &self,
        site: &Site,
        heads: &[Head<V>],
        mail: &[MailPlace<V>],
        log: &mut L,
    ) -> Result<(i64, V), Refusal>
        ensures step { Step V.Value.lawful (state_of site.now heads.now mail.now (L.Log.meaning log.old)) (Read self.now.name) (read_answer_of result) (state_of site.now heads.now mail.now (L.Log.meaning log.new)) }
        ensures law { KeepsLaw V.Value.lawful (state_of site.now heads.now mail.now (L.Log.meaning log.old)) (Read self.now.name) (read_answer_of result) (state_of site.now heads.now mail.now (L.Log.meaning log.new)) }
        ensures keeps { L.Log.kept log.old log.new }
        ensures unasked { is_some (refused_by (read_checks (state_of site.now heads.now mail.now (L.Log.meaning log.old)) self.now.name) None) ≡ true → log.new ≡ log.old }
    {
        site.read(heads, mail, log, self.name)
    }

    // The head takes the value with the next stamp, which is answered, and sends it to every other head. It is a writer from then on.
    pub fn write<V: Value>(
        self,
        site: &mut Site,
        heads: &mut [Head<V>],
        mail: &mut [MailPlace<V>],
        value: V,
    ) -> Result<(Writer, i64), Refused<Member>>
        ensures step { (m : Meaning V) → Step V.Value.lawful (state_of site.old heads.old mail.old m) (Write self.name value) (written_answer (stamp_written result)) (state_of site.new heads.new mail.new m) }
        ensures law { (m : Meaning V) → KeepsLaw V.Value.lawful (state_of site.old heads.old mail.old m) (Write self.name value) (written_answer (stamp_written result)) (state_of site.new heads.new mail.new m) }
        ensures kept { is_err result ≡ true → (site.new ≡ site.old) × (heads.new ≡ heads.old) × (mail.new ≡ mail.old) }
        ensures pass { WritesAs self.name result }
    {
        let name = self.name;
        let stamp = site
            .write(heads, mail, name, value)
            .map_err(|why| Refused { pass: self, why })?;
        Ok((Writer { name }, stamp))
    }
}

impl Leaving for Member {
    ghost named = { λ p. p.name };

    fn name(&self) -> u32 {
        self.name
    }
}
