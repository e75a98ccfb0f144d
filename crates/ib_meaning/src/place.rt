use itoa::Buffer;
use std::fmt;

/// A place in a source: line and column from 1, columns in bytes. It is shown as `LINE:COL`.
#[derive(Clone, Copy, PartialEq, Eq, Debug)]
pub struct Place {
    pub line: u32,
    pub col: u32,
}

impl fmt::Display for Place {
    ghost use Rattle.std.specs.Prelude.{Some};
    ghost use Rattle.ib_meaning.specs.Place.{place_text};

    ghost output = { λ place. Some (place_text place) };

    fn fmt<W: fmt::Write>(&self, f: &mut fmt::Formatter<W>) -> fmt::Result {
        let mut of_line = Buffer::new();
        let mut of_col = Buffer::new();
        let line = of_line.format(self.line);
        let col = of_col.format(self.col);
        write!(f, "{line}:{col}")
    }
}
