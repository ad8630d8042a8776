// The mode of a junction: how it is run.
#![tactic(auto)]

ghost use Rattle.std.specs.Prelude.{◌≡◌, Some};
ghost use Rattle.modes.specs.Modes.{mode_number, mode_argument, mode_lawful, mode_parts, mode_built, mode_fits, mode_begun, mode_text, case_ok, argument_ok};
ghost use Rattle.std.proofs.Common.{rules};

use kinds::value::{Loggable, Value, number_at};
use std::fmt;

// Run by a fixed plan, actuated by detectors up to a longest green, or held until a last tick.
#[derive(Clone, Copy, PartialEq, Eq, Debug)]
pub enum Mode {
    Fixed,
    Actuated { longest_green: u32 },
    Held { last_tick: u32 },
}

impl Mode {
    // The number of the case: 0, 1 or 2. It is a method and no conversion, for it is only a part of the value.
    pub fn number(&self) -> u32
        ensures { result ≡ mode_number self.now }
    {
        match *self {
            Mode::Fixed => 0,
            Mode::Actuated { longest_green: _ } => 1,
            Mode::Held { last_tick: _ } => 2,
        }
    }

    // The argument of the case, and 0 for a fixed mode.
    pub fn argument(&self) -> u32
        ensures { result ≡ mode_argument self.now }
    {
        match *self {
            Mode::Fixed => 0,
            Mode::Actuated { longest_green } => longest_green,
            Mode::Held { last_tick } => last_tick,
        }
    }
}

impl Value for Mode {
    ghost lawful = { mode_lawful };

    fn is_lawful(&self) -> bool {
        argument_fits(self.number(), self.argument())
    }
}

impl Loggable for Mode {
    const WIDTH: usize = 2;

    ghost WIDTH = { 2 };

    const MARK: u32 = 5;

    ghost MARK = { 5 };

    ghost parts = { mode_parts };

    ghost built = { mode_built };

    ghost fits = { mode_fits };

    ghost begun = { mode_begun };

    ghost wide = { Prim.search rules };

    ghost marked = { Prim.search rules };

    ghost long = { Prim.search rules };

    ghost small = { Prim.search rules };

    ghost rebuilt = { Prim.search rules };

    ghost apart = { Prim.search rules };

    ghost needed = { Prim.search rules };

    ghost enough = { Prim.search rules };

    ghost begins = { Prim.search rules };

    fn part(&self, i: usize) -> u32 {
        match i {
            0 => self.number(),
            1 => self.argument(),
            _ => 0,
        }
    }

    fn rebuild(numbers: &[u32]) -> Mode {
        let argument = number_at(numbers, 1);
        match number_at(numbers, 0) {
            0 => Mode::Fixed,
            1 => Mode::Actuated {
                longest_green: argument,
            },
            _ => Mode::Held {
                last_tick: argument,
            },
        }
    }

    fn fits(numbers: &[u32], i: usize) -> bool {
        let case = number_at(numbers, 0);
        match i {
            0 => case_fits(case),
            _ => argument_fits(case, number_at(numbers, 1)),
        }
    }
}

// The case, and its argument where it has one.
impl fmt::Display for Mode {
    ghost output = { λ m. Some (mode_text m) };

    fn fmt<W: fmt::Write>(&self, f: &mut fmt::Formatter<W>) -> fmt::Result {
        match *self {
            Mode::Fixed => write!(f, "fixed"),
            Mode::Actuated { longest_green } => write!(f, "actuated {longest_green}"),
            Mode::Held { last_tick } => write!(f, "held {last_tick}"),
        }
    }
}

fn case_fits(number: u32) -> bool
    ensures { result ≡ case_ok number }
{
    number <= 2
}

fn argument_fits(number: u32, argument: u32) -> bool
    ensures { result ≡ argument_ok number argument }
{
    match number {
        0 => argument == 0,
        1 => (10..=120).contains(&argument),
        _ => argument <= 268_435_454,
    }
}
