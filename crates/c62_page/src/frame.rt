//! What the page has around its parts: the same for every text.

/// Before the style sheet.
pub const PAGE_BEGIN: &str = "\
<!DOCTYPE html>
<html lang='en'>
<head>
<meta charset='utf-8'>
<meta name='viewport' content='width=device-width, initial-scale=1'>
<meta name='color-scheme' content='light dark'>
<title>c62 show</title>
<style>
";

/// Between the style sheet and the links to the blocks.
pub const PAGE_HEAD: &str = "\
</style>
</head>
<body>
<header>
<h1>c62 show</h1>
<nav aria-label='Blocks'>
";

/// Between the links and the text. The script tells of an instruction in the line that stands here.
pub const TEXT_HEAD: &str = "\
</nav>
<p id='told' aria-live='polite'></p>
</header>
<main>
<aside aria-label='Text'>
";

/// Between the text and the blocks.
pub const BLOCKS_HEAD: &str = "\
</aside>
<article>
";

/// Between the blocks and the script.
pub const BLOCKS_END: &str = "\
</article>
</main>
<script>
";

/// Behind the script.
pub const PAGE_END: &str = "\
</script>
</body>
</html>
";

/// What the grid begins with.
pub const GRID_BEGIN: &str = "<table class='grid'><thead><tr>";

/// The names of its columns.
pub const GRID_COLUMNS: &str = "\
<th>cycle</th><th>.L1</th><th>.S1</th><th>.M1</th><th>.D1</th>
<th>.L2</th><th>.S2</th><th>.M2</th><th>.D2</th>
<th>1X</th><th>2X</th><th>T1</th><th>T2</th><th>lands</th><th>live A</th><th>live B</th>";

/// What stands between the names of columns and the rows below them.
pub const ROWS_BEGIN: &str = "</tr></thead><tbody>\n";

/// What the table of bars begins with, up to the length of the block.
pub const FLIGHT_BEGIN: &str = "\
<h3>In flight</h3>
<table class='flight' style='--cycles:";

/// What the table of causes begins with.
pub const CAUSES_BEGIN: &str = "<h3>Why not earlier</h3>\n<table class='causes'><thead><tr>";

/// The names of its columns.
pub const CAUSES_COLUMNS: &str =
    "<th>line</th><th>cycle</th><th>slack</th><th>not a cycle earlier</th>";
