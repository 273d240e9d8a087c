/// The label of a hit and the slot that holds it. Seats are ordered by label, and then by slot.
#[derive(Clone, Copy, Debug, PartialEq, Eq, PartialOrd, Ord)]
pub struct Seat {
    pub label: i64,
    pub slot: u32,
}
