// How long the memories of a table are.
ghost use Rattle.std.specs.Prelude.{◌≡◌, length};
ghost use Rattle.field.specs.Sends.{Sized};

use record::Tag;

// Each memory has its 56 bytes by its type, which a proof knows of a tag that it sees alone: so each is looked at. The
// compiled program does nothing here.
pub(crate) fn measure(table: &[Tag])
    ensures { Sized table.now }
{
    for tag in table {
        measure_tag(tag);
    }
}

pub(crate) fn measure_tag(tag: &Tag)
    ensures { length tag.now.memory ≡ 56 }
{
    let _: &[u8] = &tag.memory;
}
