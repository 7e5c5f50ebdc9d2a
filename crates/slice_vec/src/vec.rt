// A list that is filled from the front of lent storage.
ghost use Rattle.std.specs.Prelude.{◌≤◌, length};

/// The storage, and how many of its items are filled. The storage is the caller's, since this is for use without a
/// heap.
#[derive(Drop)]
pub struct SliceVec<'a, T> {
    pub(crate) storage: &'a mut [T],
    pub(crate) filled: usize,
    ghost fits: { filled ≤ length storage.now },
}

/// The list has no room for one item more.
#[derive(Clone, Copy, PartialEq, Eq, Debug)]
pub struct Full;
