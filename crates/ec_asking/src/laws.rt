//! Laws of questions. Each function does nothing: its contract is the law.
ghost use Rattle.ec_asking.specs.Laws.{NobodyIsNothing, StatusIsOnlyRead, StatusIsTheSlaves};

/// The frame that reads an AL status changes no slave that it passes.
pub fn status_is_only_read()
    ensures { StatusIsOnlyRead }
{}

/// Past all slaves it says the AL status and the code of the slave that alone has the station address, and nothing if none has.
pub fn status_is_the_slaves()
    ensures one { StatusIsTheSlaves }
    ensures none { NobodyIsNothing }
{}
