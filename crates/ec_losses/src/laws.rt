//! Laws of wires and of the world. Each function does nothing: its contract is the law.
ghost use Rattle.ec_losses.specs.Losses.{LossesAreLosses};
ghost use Rattle.ec_losses.specs.Statuses.{StatusesAreRead};

/// A cycle over a wire on which frames may be lost ends as a cycle of the world in which the master keeps the same answers, and all other
/// frames are lost or under way: with the same image, the same report and the same next number.
pub fn losses_are_losses()
    ensures { LossesAreLosses }
{}

/// A master that reads the AL states of a world's slaves by frames is told what `ecat sim` prints of that world.
pub fn statuses_are_read()
    ensures { StatusesAreRead }
{}
