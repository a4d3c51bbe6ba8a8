//! What the page has around its parts, beside what other pages have.

/// The colours of stages. They are those of the kinds of instructions; behind the eighth they begin again.
pub const STAGES: &str = "\
.stage-0 { --kind: var(--load); }
.stage-1 { --kind: var(--shift); }
.stage-2 { --kind: var(--store); }
.stage-3 { --kind: var(--multiply); }
.stage-4 { --kind: var(--branch); }
.stage-5 { --kind: var(--constant); }
.stage-6 { --kind: var(--edge); }
.stage-7 { --kind: var(--ink); }
";

/// The columns of a kernel.
pub const KERNEL_COLUMNS: &str = "\
<th>cycle</th><th>.L1</th><th>.S1</th><th>.M1</th><th>.D1</th>
<th>.L2</th><th>.S2</th><th>.M2</th><th>.D2</th>";

/// What stands in the row of cycles in which nothing is issued.
pub const IDLE: &str = "</th><td colspan='8'>idle</td></tr>\n";

/// A link to a loop.
pub const TO_LOOP: &str = "<a href='#loop-";

/// A loop, by its number among those that are told of.
pub const LOOP_ID: &str = "<section id='loop-";
