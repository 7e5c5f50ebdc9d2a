// What a sheet is printed on.
ghost use Rattle.std.specs.Prelude.{ℕ, List};
ghost use Rattle.sheet.specs.Papers.{Printed};
ghost use Rattle.sheet.specs.Sheets.{blanks, column, columns, line};

use itoa::Buffer;
use protocol::refusal::Refusal;

// Paper takes bytes one behind another, as far as it has room.
pub(crate) trait Paper {
    // For how many more bytes there is room.
    ghost room: { Self → ℕ };

    // How it was, and is now that some text is printed on it.
    ghost Shows: { Self → Self → List ℕ → Type 0 };

    // Prints some bytes, or nothing where they do not all fit.
    fn put(&mut self, bytes: &[u8]) -> Result<(), Refusal>
        ensures { Printed room Shows bytes.now self.old self.new result };

    fn blanks(&mut self, count: usize) -> Result<(), Refusal>
        ensures { Printed room Shows (blanks count) self.old self.new result }
    {
        for _ in 0..count {
            self.put(b" ")?;
        }
        Ok(())
    }

    // Prints a number, right-justified in a column.
    fn column(&mut self, width: usize, number: u64) -> Result<(), Refusal>
        ensures { Printed room Shows (column width number) self.old self.new result }
    {
        let mut digits = Buffer::new();
        let digits = digits.format(number).as_bytes();
        self.blanks(width.saturating_sub(digits.len()))?;
        self.put(digits)
    }

    // Prints numbers, each in a column.
    fn columns(&mut self, width: usize, numbers: &[u64]) -> Result<(), Refusal>
        ensures { Printed room Shows (columns width numbers.now) self.old self.new result }
    {
        for number in numbers {
            self.column(width, *number)?;
        }
        Ok(())
    }

    // Prints a line of numbers, each in a column.
    fn line(&mut self, width: usize, numbers: &[u64]) -> Result<(), Refusal>
        ensures { Printed room Shows (line width numbers.now) self.old self.new result }
    {
        self.columns(width, numbers)?;
        self.put(b"\n")
    }
}
