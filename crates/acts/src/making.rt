// Whether a site can be made.
ghost use Rattle.logs.specs.Meanings.{Meaning};
ghost use Rattle.protocol.specs.Make.{make_refusal};
ghost use Rattle.records.specs.Passing.{Passes};
ghost use Rattle.acts.specs.Making.{setup_of};

use kinds::value::Value;
use protocol::refusal::Refusal;

// Whether there can be a site of so many heads and mail places, with this delay limit, swaps in a tick and starting value; or why not.
pub fn check_setup<V: Value>(
    size: usize,
    places: usize,
    delay: u32,
    swap_limit: u32,
    start: V,
) -> Result<(), Refusal>
    ensures { (m : Meaning V) → Passes (make_refusal V.Value.lawful (setup_of size places delay swap_limit start m)) result }
{
    if !(1..=64).contains(&size) {
        return Err(Refusal::HeadCount);
    }
    if !(1..=16).contains(&delay) {
        return Err(Refusal::DelayLimit);
    }
    // There is no `u64::from` of a usize, so it is a cast.
    if size as u64 <= 3 * u64::from(delay) * u64::from(swap_limit) {
        return Err(Refusal::ChurnLimit);
    }
    if places < size * size {
        return Err(Refusal::MailPlaces);
    }
    if !start.is_lawful() {
        return Err(Refusal::StartUnlawful);
    }
    Ok(())
}
