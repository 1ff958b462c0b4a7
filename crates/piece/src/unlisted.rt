// What is said of a number that document 01's bytes list for nothing.
#[derive(Clone, Copy, PartialEq, Eq)]
pub struct Unlisted;
