// Fields that lend the records of their tags.
ghost use Rattle.std.specs.Prelude.{◌≡◌};
ghost use Rattle.std.specs.Option.{option_map};
ghost use Rattle.std.specs.List.{slice_get};

use crate::field::Field;
use record::Tag;

/// What a field owes is its three calls; a kind that has records can lend them too.
pub trait Lending: Field {
    /// The tag at a place, if there is one.
    fn tag(&self, place: usize) -> Option<&Tag>
        ensures { option_map (λ x. x.now) result ≡ slice_get (Self.tags self.now) place };
}
