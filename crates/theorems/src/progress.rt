ghost use Rattle.std.specs.Prelude.{◌≡◌, true};
ghost use Rattle.law.specs.Laws.{AlwaysProgress};

use kinds::value::Value;

// The clock can always be moved on: what is due can be brought, and when nothing is due the tick is accepted.
pub fn always_progress<V: Value>() -> bool
    ensures holds { result ≡ true }
    ensures law { AlwaysProgress V }
{
    theorem::<V>();
    true
}

fn theorem<V: Value>()
    ensures { AlwaysProgress V }
{}
