ghost use Rattle.std.specs.Prelude.{◌≡◌, true};
ghost use Rattle.law.specs.Laws.{AlwaysInBounds};

use kinds::value::Value;

// No call of a run is refused for its tables, for room or for an unsound entry, and nobody is ever stranded.
pub fn always_in_bounds<V: Value>() -> bool
    ensures holds { result ≡ true }
    ensures law { AlwaysInBounds V }
{
    theorem::<V>();
    true
}

fn theorem<V: Value>()
    ensures { AlwaysInBounds V }
{}
