// The plan of a junction, in seconds.
#![tactic(auto)]

ghost use Rattle.std.specs.Prelude.{◌≡◌, Some};
ghost use Rattle.plans.specs.Plans.{plan_lawful, plan_parts, plan_built, plan_fits, plan_begun, plan_text, cycle_ok, offset_ok, green_ok};
ghost use Rattle.std.proofs.Common.{rules};

use kinds::value::{Loggable, Value, number_at};
use std::fmt;

// A plan may be written down that is not lawful.
#[derive(Clone, Copy, PartialEq, Eq, Debug)]
pub struct Plan {
    pub cycle: u32,
    pub offset: u32,
    pub green: u32,
}

impl Value for Plan {
    ghost lawful = { plan_lawful };

    fn is_lawful(&self) -> bool {
        cycle_fits(self.cycle)
            && offset_fits(self.cycle, self.offset)
            && green_fits(self.cycle, self.green)
    }
}

impl Loggable for Plan {
    const WIDTH: usize = 3;

    ghost WIDTH = { 3 };

    const MARK: u32 = 4;

    ghost MARK = { 4 };

    ghost parts = { plan_parts };

    ghost built = { plan_built };

    ghost fits = { plan_fits };

    ghost begun = { plan_begun };

    ghost wide = { Prim.search rules };

    ghost marked = { Prim.search rules };

    ghost long = { Prim.search rules };

    ghost small = { Prim.search rules };

    ghost rebuilt = { Prim.search rules };

    ghost apart = { Prim.search rules };

    ghost needed = { Prim.search rules };

    ghost enough = { Prim.search rules };

    ghost begins = { Prim.search rules };

    fn part(&self, i: usize) -> u32 {
        match i {
            0 => self.cycle,
            1 => self.offset,
            2 => self.green,
            _ => 0,
        }
    }

    fn rebuild(numbers: &[u32]) -> Plan {
        Plan {
            cycle: number_at(numbers, 0),
            offset: number_at(numbers, 1),
            green: number_at(numbers, 2),
        }
    }

    fn fits(numbers: &[u32], i: usize) -> bool {
        let plan = Self::rebuild(numbers);
        match i {
            0 => cycle_fits(plan.cycle),
            1 => offset_fits(plan.cycle, plan.offset),
            _ => green_fits(plan.cycle, plan.green),
        }
    }
}

// Cycle, offset and green.
impl fmt::Display for Plan {
    ghost output = { λ p. Some (plan_text p) };

    fn fmt<W: fmt::Write>(&self, f: &mut fmt::Formatter<W>) -> fmt::Result {
        write!(f, "{} {} {}", self.cycle, self.offset, self.green)
    }
}

fn cycle_fits(cycle: u32) -> bool
    ensures { result ≡ cycle_ok cycle }
{
    (30..=240).contains(&cycle)
}

fn offset_fits(cycle: u32, offset: u32) -> bool
    ensures { result ≡ offset_ok cycle offset }
{
    offset < cycle
}

fn green_fits(cycle: u32, green: u32) -> bool
    ensures { result ≡ green_ok cycle green }
{
    5 <= green && green <= cycle && cycle - green >= 5
}
