ghost use Rattle.std.specs.Prelude.{◌≡◌, true};
ghost use Rattle.law.specs.Laws.{MakeSuffices};

use kinds::value::Value;

// Whatever make accepts has few enough swaps for the law.
pub fn make_suffices<V: Value>() -> bool
    ensures holds { result ≡ true }
    ensures law { MakeSuffices V }
{
    theorem::<V>();
    true
}

fn theorem<V: Value>()
    ensures { MakeSuffices V }
{}
