//! Tags, up to the number or the text that stands in them, and what ends them.

/// The line of a text, by its number.
pub const LINE_ID: &str = "<li id='line-";
/// Which line a row or a cell tells of, behind another attribute.
pub const DATA_LINE: &str = "' data-line='";

pub const LINE_END: &str = "</code></li>\n";
/// A link to the cell of a line.
pub const TO_CELL: &str = "<a href='#cell-";
/// A link to a line, to which Tab doesn't go: it goes to the cell.
pub const TO_LINE: &str = "<a tabindex='-1' href='#line-";
/// A link to a block.
pub const TO_BLOCK: &str = "<a href='#block-";
/// The cell of a line, to which Tab goes.
pub const CELL_ID: &str = "<td id='cell-";

pub const CELL_CLASS: &str = "' tabindex='0' class='";
/// A row that tells of a line.
pub const ROW_LINE: &str = "<tr data-line='";

pub const ROW_END: &str = "</td></tr>\n";

pub const TABLE_END: &str = "</tbody></table>\n";
/// A bar, by its first cycle and how many it has.
pub const BAR_FROM: &str = "</td><td><i style='--from:";

pub const BAR_END: &str = "</i></td></tr>\n";
/// The line that an instruction waits for.
pub const DATA_AFTER: &str = " data-after='";
/// How many cycles it must come behind that line.
pub const DATA_NEEDS: &str = " data-needs='";
/// A block, by its number.
pub const SECTION_ID: &str = "<section id='block-";

pub const SECTION_END: &str = "</section>\n";
