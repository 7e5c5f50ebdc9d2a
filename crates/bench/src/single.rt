// One tag on its own.
use record::Tag;

/// One tag on its own: a field of one place.
#[derive(Clone, Copy)]
pub struct Single {
    pub(crate) tag: Tag,
}
