//! A counter that ticks twice has counted two steps.
ghost use Rattle.std.specs.Prelude.{◌≡◌, ◌<◌};

use dcx_steps::Steps;
use std::marker::Brand;
use std::sync::ledger::{Blank, Ledger};

/// Takes only a counter that stands at 2.
fn expect_two<L: Ledger>(steps: &Steps<L>)
    requires { steps.now ≡ 2 }
{}

/// Counts twice, from nothing.
fn tick_twice<L: Ledger>(blank: Blank)
    requires name { blank.name ≡ L.name }
    requires parts { blank.parts ≡ L.parts }
    requires some { 0 < blank.parts }
{
    let mut steps = Steps::<L>::new(blank);
    steps.tick();
    steps.tick();
    expect_two(&steps);
}

#[test]
fn two_ticks_are_two_steps() {
    tick_twice::<Brand>(Blank::new(1));
}
