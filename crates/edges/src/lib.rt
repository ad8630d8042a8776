// The edges of the rules, as one statement.
#![tactic(auto)]

ghost use Rattle.std.specs.Prelude.{◌≡◌, true};
ghost use Rattle.edges.specs.Edges.{Edges, AllEdges};

// The edges of plans, of modes and of the word log of plans, and where make begins to refuse.
pub fn edges_hold() -> bool
    ensures holds { result ≡ true }
    ensures edges { Edges }
    ensures law { AllEdges }
{
    edges_theorem();
    theorem();
    true
}

fn edges_theorem()
    ensures { Edges }
{}

fn theorem()
    ensures { AllEdges }
{}
