// What the passes of newcomers and members allow alike.
ghost use Rattle.std.specs.Prelude.{◌≡◌, true, ℕ, is_err};
ghost use Rattle.logs.specs.Meanings.{Meaning};
ghost use Rattle.protocol.specs.declared.call.Call.TheVariants.{Swap};
ghost use Rattle.protocol.specs.Steps.{Step};
ghost use Rattle.law.specs.Laws.{KeepsLaw};
ghost use Rattle.site.specs.States.{state_of, swapped_answer};
ghost use Rattle.passes.specs.Passes.{bare, HandsBack};

use crate::Refused;
use kinds::value::Value;
use site::site::Site;
use tables::head::Head;
use tables::mail::MailPlace;

// A pass by which its head may be swapped.
pub trait Leaving: Drop + Sized {
    ghost named: { Self → ℕ };

    // The name of the head.
    fn name(&self) -> u32
        ensures { result ≡ named self.now };

    // Swaps the head for a newcomer, and answers its name.
    fn swap<V: Value>(
        self,
        site: &mut Site,
        heads: &mut [Head<V>],
        mail: &mut [MailPlace<V>],
    ) -> Result<u32, Refused<Self>>
        ensures step { (m : Meaning V) → Step V.Value.lawful (state_of site.old heads.old mail.old m) (Swap (named self)) (swapped_answer (bare result)) (state_of site.new heads.new mail.new m) }
        ensures law { (m : Meaning V) → KeepsLaw V.Value.lawful (state_of site.old heads.old mail.old m) (Swap (named self)) (swapped_answer (bare result)) (state_of site.new heads.new mail.new m) }
        ensures kept { is_err result ≡ true → (site.new ≡ site.old) × (heads.new ≡ heads.old) × (mail.new ≡ mail.old) }
        ensures pass { HandsBack self result }
    {
        let name = self.name();
        site.swap(heads, mail, name)
            .map_err(|why| Refused { pass: self, why })
    }
}
