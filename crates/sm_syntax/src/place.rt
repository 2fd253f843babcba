//! Places in a text.
ghost use Rattle.std.specs.Prelude.{◌≡◌};
ghost use Rattle.sm_syntax.specs.Places.{along, next_line, start_place};

/// A line and a column, both counted from 1, the column in bytes. A number that passes the greatest one stands
/// still there.
#[derive(Clone, Copy)]
pub struct Place {
    pub line: u32,
    pub column: u32,
}

impl Place {
    /// The place of the first byte.
    pub fn start() -> Place
        ensures { result ≡ start_place }
    {
        Place { line: 1, column: 1 }
    }

    /// The place behind a line feed.
    pub fn next_line(self) -> Place
        ensures { result ≡ next_line self }
    {
        Place {
            line: self.line.saturating_add(1),
            column: 1,
        }
    }

    /// The place so many bytes further on in the line.
    pub fn along(self, bytes: usize) -> Place
        ensures { result ≡ along self bytes }
    {
        let bytes = u32::try_from(bytes).unwrap_or(u32::MAX);
        Place {
            line: self.line,
            column: self.column.saturating_add(bytes),
        }
    }
}
