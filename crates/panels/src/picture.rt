// A panel as a person reads it.
ghost use Rattle.std.specs.Prelude.{◌≡◌, Some, ◌==◌};
ghost use Rattle.panels.specs.Pictures.{bar, picture_text};

use crate::panel::Panel;
use std::fmt;

// One line that shows a panel: its cells with a bar before each and behind the last, and `>` for the bar at which the
// cursor stands.
#[derive(Drop)]
pub struct Picture<'a, N: Panel> {
    pub panel: &'a N,
}

fn bar_at(j: usize, cursor: usize) -> char
    ensures { result ≡ bar (j == cursor) }
{
    if j == cursor { '>' } else { '|' }
}

impl<N: Panel> fmt::Display for Picture<'_, N> {
    ghost output = { λ x. Some (picture_text (N.Panel.screen x.panel.now)) };

    fn fmt<W: fmt::Write>(&self, f: &mut fmt::Formatter<W>) -> fmt::Result {
        let cursor = self.panel.cursor();
        let columns = self.panel.columns();
        for j in 0..columns {
            let bar = bar_at(j, cursor);
            // Each column has a cell.
            let cell = self.panel.read(j).unwrap();
            write!(f, "{bar}{cell}")?;
        }
        let bar = bar_at(columns, cursor);
        write!(f, "{bar}")
    }
}
