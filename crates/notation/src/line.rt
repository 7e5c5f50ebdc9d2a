// Where in the input something is wrong.
ghost use Rattle.std.specs.Fmt.{WritesOnOk};
ghost use Rattle.std.specs.Prelude.{Some};
ghost use Rattle.notation.specs.Errors.{line_text};

use std::fmt;

/// A line of the input, by its number from 1.
#[derive(Clone, Copy)]
pub struct Line {
    pub number: usize,
}

impl fmt::Display for Line {
    ghost output = { λ line. Some (line_text line.number) };

    fn fmt<W: fmt::Write>(&self, f: &mut fmt::Formatter<W>) -> fmt::Result
        ensures writes { WritesOnOk W.Write.write_str_gives f.old result (line_text self.now.number) f.new }
    {
        write!(f, "line {}", self.number)
    }
}
