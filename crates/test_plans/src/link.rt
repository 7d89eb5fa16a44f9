//! Places in the image and links of plans, and what else is asked of a plan. Slaves, parts and units of plans, and links, entries and machines that are refused, as `ecat plan`
//! tells of them, stand as cases in `tools/cases/data/plans.cases` and `links.cases`; `tools/joined/run` has links in large numbers.
mod tables;

use self::tables::{IMAGE, NO_IMAGE, SAID, SAID_OF_TEXTS, THREE_SLAVES, TWO_UNITS};
use crate::compare::{expect, expect_said, expect_same, expect_text, push_rows};
use ec_link::{ExpectedCounters, Machine, Plan};
use ec_table::Direction;
use std::alloc::{AllocError, Global};
use std::process::Abort;

/// The sizes of a plan's image, and a line for each variable and for each link.
fn image_text(alloc: Global, plan: &Plan) -> Result<String, AllocError> {
    let (outs, ins) = (plan.out_bits(), plan.in_bits());
    let mut text = format!(in alloc; "out {outs} in {ins}\n")?;
    push_rows(&mut text, plan.variables())?;
    push_rows(&mut text, plan.out_links())?;
    push_rows(&mut text, plan.in_links())?;
    Ok(text)
}

/// Compares the image of the machine of a text.
fn expect_image(rt: &(impl AllocGlobal + Abort), text: &str, wanted: &str) {
    let machine = Machine::read(rt.alloc(), text).expect(rt, text);
    expect_text(rt, image_text(rt.alloc(), machine.plan()), wanted);
}

// Sync units don't change it.
#[test]
fn images_have_variables_one_behind_the_other(rt: HostRuntime) {
    expect_image(&rt, "", NO_IMAGE);
    expect_image(&rt, THREE_SLAVES, IMAGE);
    expect_image(&rt, TWO_UNITS, IMAGE);
}

/// Compares what is asked of the plan of three slaves. Outputs of the first one: four bits at 0x1100. Two links each way. One part and
/// one unit have all slaves; its counter is 2 for each with outputs, and 1 for each with inputs.
fn expect_parts(rt: &impl Abort, plan: &Plan) {
    expect(
        rt,
        plan.slaves().len() == 3 && plan.parts().len() == 1,
        "three slaves",
    );
    let outputs = plan.settings(0).managers[2];
    let links = (
        plan.links(Direction::Out).len(),
        plan.links(Direction::In).len(),
    );
    let units = (plan.units(), plan.unit_of(2), plan.unit_of_part(0));
    let part = (plan.part_of(2), plan.predicted(0));
    expect_same(
        rt,
        &(outputs.start, outputs.length, links, part, units),
        &(
            0x1100,
            1,
            (2, 2),
            (0, ExpectedCounters::Lrw(6)),
            ([0].as_slice(), 0, 0),
        ),
        "a plan",
    );
}

#[test]
fn plans_have_parts_and_units(rt: HostRuntime) {
    let machine = Machine::read(rt.alloc(), THREE_SLAVES).expect(&rt, "a machine");
    expect_parts(&rt, machine.plan());
}

#[test]
fn says_what_is_wrong(rt: HostRuntime) {
    for (error, wanted) in &SAID {
        expect_said(&rt, error, wanted);
    }
}

#[test]
fn says_what_is_wrong_with_a_text(rt: HostRuntime) {
    for (error, wanted) in &SAID_OF_TEXTS {
        expect_said(&rt, error, wanted);
    }
}
