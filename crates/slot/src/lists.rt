// The lists that a sweep fills.
use crate::listed::ListedSlot;
use record::Serial;
use slice_vec::vec::SliceVec;

/// Its slots, and the serial numbers of the tags that it has read.
#[derive(Drop)]
pub struct Lists<'a> {
    pub slots: SliceVec<'a, ListedSlot>,
    pub serials: SliceVec<'a, Serial>,
}
