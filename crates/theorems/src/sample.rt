ghost use Rattle.std.specs.Prelude.{◌≡◌, true};
ghost use Rattle.law.specs.Samples.{SampleRun};

// A write, a swap, a newcomer that joins and reads the new plan: a run, with exactly these answers.
pub fn sample_run_is_reached() -> bool
    ensures holds { result ≡ true }
    ensures law { SampleRun }
{
    theorem();
    true
}

fn theorem()
    ensures { SampleRun }
{}
