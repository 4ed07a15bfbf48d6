/// The side of a leg that is asked for as the outer side: 0 for the leg's left, 1 for its right. It is a number, since every
/// other number is refused with a cause.
#[derive(Clone, Copy, Debug, PartialEq, Eq, Hash)]
pub struct OuterSide {
    pub leg: usize,
    pub side: u32,
}
