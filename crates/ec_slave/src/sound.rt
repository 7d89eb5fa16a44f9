//! What holds of every slave.

ghost use Rattle.ec_slave.specs.Sound.{IsSlave};

use crate::slave::Slave;

impl Slave {
    /// Does nothing. Its contract says what holds of every slave, whatever was done to it: the
    /// lengths of its memory and of its managers' values, the image of its SII, its slots and its parameters.
    pub fn is_sound(&self)
        ensures { IsSlave self.now }
    {
        self.managers[0].is_sound();
        self.managers[1].is_sound();
        self.managers[2].is_sound();
        self.managers[3].is_sound();
        self.port.is_sound();
        self.dictionary.is_sound();
    }
}
