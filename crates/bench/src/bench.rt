// A table of tags that is the caller's, as a field.
ghost use Rattle.std.specs.Prelude.{◌≡◌, ◌≤◌, length};
ghost use Rattle.field.specs.Sends.{Sized};
ghost use Rattle.bench.specs.Tables.{place_of};

use record::Tag;

/// At most 64 places, and each memory has its 56 bytes, which a tag in a slice does not have from its type.
#[derive(Drop)]
pub struct Bench<'a> {
    pub(crate) table: &'a mut [Tag],
    ghost few: { length table.now ≤ 64 },
    ghost sized: { Sized table.now },
}

/// The first place of a table that has a serial number.
pub fn place_of(table: &[Tag], serial: &[u8]) -> Option<usize>
    ensures place { result ≡ place_of table.now serial.now }
{
    table.iter().position(|tag| tag.has_serial(serial))
}
