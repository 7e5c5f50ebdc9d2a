// Whether two fields have the same tags.
ghost use Rattle.std.specs.Prelude.{◌≡◌, ◌↔◌, IsTrue};
ghost use Rattle.two_fields.specs.Places.{alike_at};

use field::lending::Lending;

/// Place by place, and in every part.
pub fn agree<L: Lending, R: Lending>(left: &L, right: &R) -> bool
    ensures { IsTrue result ↔ (L.tags left.now ≡ R.tags right.now) }
{
    left.places() == right.places() && (0..left.places()).all(|place| agree_at(left, right, place))
}

fn agree_at<L: Lending, R: Lending>(left: &L, right: &R, place: usize) -> bool
    ensures { result ≡ alike_at (L.tags left.now) (R.tags right.now) place }
{
    left.tag(place) == right.tag(place)
}
