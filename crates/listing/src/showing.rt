// What is shown of a table file.
ghost use Rattle.text.specs.Said.{said};
ghost use Rattle.listing.specs.Shown.{Shown};

use crate::lines::{refused_line, table_text};
use table::Table;
use text::Text;

// The flows of the table whose file the bytes are, or the line that says why they are refused.
pub fn show(bytes: &[u8]) -> Text
    ensures { Shown bytes.now (said result) }
{
    match Table::read(bytes) {
        Ok(table) => table_text(&table),
        Err(fault) => refused_line(fault),
    }
}
