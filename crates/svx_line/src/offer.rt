use refusal::Refusal;
use survey::leg::Leg;

/// A leg that a line offers, with the place of the line's first field.
#[derive(Clone, Copy, Debug, PartialEq, Eq, Hash)]
pub struct Offer {
    pub place: usize,
    pub leg: Leg,
}

/// What is wrong with a line, and where in the text.
#[derive(Clone, Copy, Debug, PartialEq, Eq, Hash)]
pub struct Flaw {
    pub cause: Refusal,
    pub place: usize,
}
