// The front of a lent buffer, as paper.
ghost use Rattle.std.specs.Prelude.{◌-◌, length};
ghost use Rattle.slice_vec.specs.Filling.{items_of, capacity_of};

use crate::paper::Paper;
use protocol::refusal::Refusal;
use slice_vec::vec::SliceVec;

impl Paper for SliceVec<'_, u8> {
    ghost use Rattle.sheet.specs.Fronts.{Filled};

    ghost room = { λ front. capacity_of front - length (items_of front) };

    ghost Shows = { Filled };

    fn put(&mut self, bytes: &[u8]) -> Result<(), Refusal> {
        self.extend_from_slice(bytes).or(Err(Refusal::Buffer))
    }
}
