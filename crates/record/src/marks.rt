// Write marks, read of numbers.
ghost use Rattle.record.specs.Marks.{ReadsMark};

use crate::WriteMark;
use crate::unknown::Unknown;

impl TryFrom<u8> for WriteMark {
    type Error = Unknown;

    ghost try_from_gives = { ReadsMark };

    fn try_from(number: u8) -> Result<WriteMark, Unknown> {
        match number {
            0 => Ok(WriteMark::Clear),
            1 => Ok(WriteMark::Fading),
            2 => Ok(WriteMark::Fresh),
            _ => Err(Unknown::Mark),
        }
    }
}
