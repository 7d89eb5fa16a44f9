//! What `clap`'s specification says of arguments that are spelled out. Each function does nothing; its
//! contract is the law.

ghost use Rattle.ec_args.specs.Requests.{PassIsRead, PlanIsRead};

/// `ecat pass --slaves N HEX` asks for that pass, and for nothing else.
pub fn pass_is_read_as_pass()
    ensures { PassIsRead }
{}

/// `ecat plan` asks for a plan, and `ecat plan --explain` for one that is explained.
pub fn plan_is_read_as_plan()
    ensures { PlanIsRead }
{}
