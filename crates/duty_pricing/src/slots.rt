// A stored label, with links to earlier ones.
use duty_plan::{Label, Step};

/// A stored label, the step that it was extended by, and links to other slots. A slot's number is 1,024 times that of its
/// chunk in the store and its place there.
#[derive(Clone, Copy, PartialEq, Eq, Debug)]
pub struct Slot {
    /// Where the driver is after the steps, and what they come to.
    pub label: Label,
    /// The last step of the label's steps; of the first slot any step.
    pub step: Step,
    /// The number of the slot that it was extended from.
    pub parent: u32,
    /// One more than the number of the last earlier slot at the same minute; 0 where there is none.
    pub same_minute: u32,
    /// One more than the number of the last earlier slot of the same cell: at the same place, with a work day that began in the same
    /// hour; 0 where there is none.
    pub same_cell: u32,
}

/// The most bytes of a slot.
const SLOT_LIMIT: usize = 192;

const _: () = prove!(std::mem::size_of::<Slot>() <= SLOT_LIMIT);
