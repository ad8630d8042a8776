ghost use Rattle.std.specs.Prelude.{◌≡◌, true};
ghost use Rattle.law.specs.Samples.{ChurnLimit};

// At which numbers make's churn check begins to refuse.
pub fn churn_limit_holds() -> bool
    ensures holds { result ≡ true }
    ensures law { ChurnLimit }
{
    true
}
