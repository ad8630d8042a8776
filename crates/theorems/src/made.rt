ghost use Rattle.std.specs.Prelude.{◌≡◌, true};
ghost use Rattle.law.specs.Laws.{LawOfMake};

use kinds::value::Value;

// The same after every run of a site that make accepts.
pub fn regular_once_made<V: Value>() -> bool
    ensures holds { result ≡ true }
    ensures law { LawOfMake V }
{
    theorem::<V>();
    true
}

fn theorem<V: Value>()
    ensures { LawOfMake V }
{}
