//! Parts an answer by how many bytes go to each file.

ghost use Rattle.std.specs.Prelude.{◌≡◌, ◌≤◌, ◌∷◌, [], IfOk, MatchOption, map, take, drop};
ghost use Rattle.c62_files.specs.Words.{texts};
ghost use Rattle.c62_files.specs.Writing.{text_output};
ghost use Rattle.c62_dumping.specs.Cut.{dumped_in, files_of, front_of, report_in};

use c62_files::Output;
use std::alloc::{AllocError, Global};

/// How many of so many bytes stand before those that go to files.
fn front_of(total: usize, counts: &[usize]) -> usize
    ensures front { result ≡ front_of total counts.now }
    ensures within { result ≤ total }
{
    let mut front = total;
    for count in counts {
        front = front.saturating_sub(*count);
    }
    front
}

/// What stands in an answer before the bytes that go to files, and these.
pub fn parted<'a>(answer: &'a [u8], counts: &[usize]) -> (&'a [u8], &'a [u8])
    ensures report { result.0.now ≡ report_in counts.now answer.entry.now }
    ensures dumped { result.1.now ≡ dumped_in counts.now answer.entry.now }
{
    answer.split_at(front_of(answer.len(), counts))
}

/// So many bytes, and those behind them; all where there are fewer.
fn first_of<'a>(bytes: &'a [u8], count: usize) -> (&'a [u8], &'a [u8])
    ensures first { result.0.now ≡ take count bytes.entry.now }
    ensures behind { result.1.now ≡ drop count bytes.entry.now }
{
    bytes.split_at(count.min(bytes.len()))
}

/// The first of these counts, and those behind it.
fn first_count(counts: &[usize]) -> Option<(usize, &[usize])>
    ensures { MatchOption result (counts.now ≡ []) (λ found. counts.now ≡ found.0 ∷ found.1.now) }
{
    match counts {
        [] => None,
        [count, more @ ..] => Some((*count, more)),
    }
}

/// The files of these names, each with as many of the bytes as its count says, one behind the other.
///
/// # Errors
///
/// `AllocError` where memory ran out.
pub fn files_of<'a, 'b>(
    alloc: Global,
    names: &[&'a str],
    counts: &[usize],
    bytes: &'b [u8],
) -> Result<Vec<Output<'a, 'b>>, AllocError>
    ensures { IfOk result (λ files. map text_output files.items ≡ files_of (texts names.now) counts.now bytes.entry.now) }
{
    let mut files = Vec::new(alloc);
    let mut counts = counts;
    let mut rest = bytes;
    for name in names {
        let Some((count, more)) = first_count(counts) else {
            return Ok(files);
        };
        let (mine, behind) = first_of(rest, count);
        files.push(Output {
            name: *name,
            bytes: mine,
        })?;
        counts = more;
        rest = behind;
    }
    Ok(files)
}
