// The register of a site: it is made, and then one call after another is performed. The law stands on the contracts of these two.
#![tactic(auto)]

ghost use Rattle.std.specs.Prelude.{◌≡◌, true, length, is_some, is_err, Ok};
ghost use Rattle.protocol.specs.Answers.{refusal_told};
ghost use Rattle.protocol.specs.Steps.{Step};
ghost use Rattle.law.specs.Laws.{Begun, KeepsLaw};
ghost use Rattle.acts.specs.Making.{setup_of};
ghost use Rattle.site.specs.Makes.{Makes};
ghost use Rattle.site.specs.States.{state_of, answered};

use kinds::value::Value;
use logs::log::Log;
use protocol::answer::Answer;
use protocol::call::Call;
use protocol::refusal::Refusal;
use records::label::Label;
use site::site::Site;
use tables::head::Head;
use tables::mail::MailPlace;

// A site over these tables, with an empty mail; the log may hold entries already. Delay, swap limit and start are the numbers of a make as the rules name them; a record of them would be made for this one call.
pub fn make<V: Value, L: Log<V>>(
    heads: &mut [Head<V>],
    mail: &mut [MailPlace<V>],
    log: &L,
    delay: u32,
    swap_limit: u32,
    start: V,
) -> Result<Site, Refusal>
    ensures made { Makes V.Value.lawful (setup_of (length heads.old) (length mail.old) delay swap_limit start (L.Log.meaning log.now)) result heads.new mail.new }
    ensures kept { is_err result ≡ true → (heads.new ≡ heads.old) × (mail.new ≡ mail.old) }
    ensures law { (site : Site) → result ≡ Ok site → Begun V.Value.lawful (setup_of (length heads.old) (length mail.old) delay swap_limit start (L.Log.meaning log.now)) (state_of site heads.new mail.new (L.Log.meaning log.now)) }
{
    Site::make(heads, mail, delay, swap_limit, start)
}

// Performs one call: it is carried out and answered, or refused, and then nothing is altered. Whatever run came before, the law holds after it.
pub fn perform<V: Value, L: Log<V>>(
    site: &mut Site,
    heads: &mut [Head<V>],
    mail: &mut [MailPlace<V>],
    log: &mut L,
    call: &Call<V>,
) -> Answer<V>
    ensures step { Step V.Value.lawful (state_of site.old heads.old mail.old (L.Log.meaning log.old)) call.now result (state_of site.new heads.new mail.new (L.Log.meaning log.new)) }
    ensures law { KeepsLaw V.Value.lawful (state_of site.old heads.old mail.old (L.Log.meaning log.old)) call.now result (state_of site.new heads.new mail.new (L.Log.meaning log.new)) }
    ensures kept { is_some (refusal_told result) ≡ true → (site.new ≡ site.old) × (heads.new ≡ heads.old) × (mail.new ≡ mail.old) }
    ensures lender { L.Log.kept log.old log.new }
{
    // A match, since the borrow check does not cover an `unwrap_or_else` whose function alone names the type of a value.
    match carry_out(site, heads, mail, log, call) {
        Ok(answer) => answer,
        Err(why) => Answer::Refused(why),
    }
}

// Carries the call out and answers it, or tells why it is refused.
fn carry_out<V: Value, L: Log<V>>(
    site: &mut Site,
    heads: &mut [Head<V>],
    mail: &mut [MailPlace<V>],
    log: &mut L,
    call: &Call<V>,
) -> Result<Answer<V>, Refusal>
    ensures step { Step V.Value.lawful (state_of site.old heads.old mail.old (L.Log.meaning log.old)) call.now (answered result) (state_of site.new heads.new mail.new (L.Log.meaning log.new)) }
    ensures kept { is_some (refusal_told (answered result)) ≡ true → (site.new ≡ site.old) × (heads.new ≡ heads.old) × (mail.new ≡ mail.old) }
    ensures lender { L.Log.kept log.old log.new }
{
    match *call {
        Call::Swap { name } => Ok(Answer::Swapped {
            name: site.swap(heads, mail, name)?,
        }),
        Call::Read { name } => {
            let (stamp, value) = site.read(heads, mail, log, name)?;
            Ok(Answer::Value { stamp, value })
        }
        Call::Write { name, value } => Ok(Answer::Written {
            stamp: site.write(heads, mail, name, value)?,
        }),
        Call::Bring {
            kind,
            sender,
            receiver,
        } => {
            let label = Label {
                kind,
                sender,
                receiver,
            };
            site.bring(heads, mail, label)?;
            Ok(Answer::Brought)
        }
        Call::Tick => {
            let (time, turned) = site.tick(heads, mail)?;
            Ok(Answer::Ticked { time, turned })
        }
        Call::Look { name } => {
            let (state, stamp) = site.look(heads, mail, name)?;
            Ok(Answer::Seen { state, stamp })
        }
    }
}
