//! Laws of the registers. Each function does nothing: its contract is the law.
ghost use Rattle.ec_names.specs.Laws.{RegistersFollowEachOther, RegistersLieBeforeTheRam};

/// The registers are listed in the order of their addresses, and no two of them share a byte.
pub fn registers_follow_each_other()
    ensures { RegistersFollowEachOther }
{}

/// All registers that have a name lie before the RAM.
pub fn registers_lie_before_the_ram()
    ensures { RegistersLieBeforeTheRam }
{}
