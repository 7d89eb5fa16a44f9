//! What `expect` looks at.
use crate::value_test::ValueTest;
use ec_al::State;

/// What a line expects of the world that it finds.
#[derive(Clone, Copy, Debug, PartialEq, Eq, Drop)]
pub enum Expectation {
    /// The variable at this place has this value: an input in the process image, an output in the bits
    /// that slaves publish.
    Is(usize, u64),
    /// The value of the variable at this place meets this test: of an input the value in the process image, of an output the one
    /// that slaves publish.
    Holds(usize, ValueTest),
    /// The variable at this place is compared with a value that its bits can't hold: this never holds.
    Never(usize),
    /// Every sync unit of the last report was taken; or with false, none was.
    Units(bool),
    /// The sync unit with this number was taken in the last report; or with false, it wasn't.
    Unit(u64, bool),
    /// The slave at this place is in this AL state, and shows this AL status code if one is given.
    State(usize, State, Option<u16>),
    /// The start-up has ended Ready.
    Ready,
    /// The start-up has failed, by the refusal with this number if one is given.
    Failed(Option<u64>),
}
