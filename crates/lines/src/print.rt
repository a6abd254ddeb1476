// Lines of text, each written from its end: a number is known by its last digits first. A line and its end go together, as in the
// kit's `write_digits`.
ghost use Rattle.std.specs.Prelude.{◌≡◌, ◌+◌, ◌*◌, ◌≤◌, [], ◌∷◌, ◌++◌, length, drop, codes};
ghost use Rattle.std.specs.List.{flat_map};
ghost use Rattle.lines.specs.Shown.{setting_shown};
ghost use Rattle.lines.specs.Texts.{closed_numbers, spaced, line_of, total_line};

use crate::shown::Shown;
use itoa::write_digits;

// A line has at most so many bytes: 20 digits, a space and two digits for each of 60 links, and a line feed.
pub(crate) const MOST_LINE: usize = 201;

// The line of the number of settings has at most so many: the word, a space, 20 digits and a line feed.
pub(crate) const MOST_TOTAL: usize = 27;

// Writes the line of a setting so that it ends where these bytes do, and returns where it starts.
pub(crate) fn write_line(number: u64, shown: &Shown, line: &mut [u8; MOST_LINE]) -> usize
    ensures within { result ≤ 201 }
    ensures written { drop result line.new ≡ line_of number (setting_shown shown.now) }
{
    line[MOST_LINE - 1] = b'\n';
    let start = write_links(shown, line, MOST_LINE - 1);
    write_digits(number, line, start)
}

// Writes how many settings there are so that it ends where these bytes do, and returns where it starts.
pub(crate) fn write_total(settings: u64, line: &mut [u8; MOST_TOTAL]) -> usize
    ensures within { result ≤ 27 }
    ensures written { drop result line.new ≡ total_line settings }
{
    line[MOST_TOTAL - 1] = b'\n';
    let start = write_spaced(settings, line, MOST_TOTAL - 1);
    write_word(b"total", line, start)
}

// Writes the closed links, each behind a space, so that they end here, and returns where they start.
fn write_links(shown: &Shown, line: &mut [u8], end: usize) -> usize
    requires { (3 * length (setting_shown shown.now) ≤ end) × (end ≤ length line.old) }
    ensures room { (result ≤ end) × (end ≤ result + 3 * length (setting_shown shown.now)) }
    ensures written { drop result line.new ≡ flat_map spaced (closed_numbers (setting_shown shown.now)) ++ drop end line.old }
{
    let mut start = end;
    for link in (1..=shown.links()).rev() {
        if shown.has_closed(link) {
            start = write_spaced(link, line, start);
        }
    }
    start
}

// Writes a space and a number so that they end here, and returns where they start.
fn write_spaced(number: u64, line: &mut [u8], end: usize) -> usize
    requires { (length (spaced number) ≤ end) × (end ≤ length line.old) }
    ensures start { result + length (spaced number) ≡ end }
    ensures written { drop result line.new ≡ spaced number ++ drop end line.old }
{
    let space = write_digits(number, line, end) - 1;
    line[space] = b' ';
    space
}

// Writes a word so that it ends here, and returns where it starts.
fn write_word(word: &[u8], line: &mut [u8], end: usize) -> usize
    requires { (length word.now ≤ end) × (end ≤ length line.old) }
    ensures start { result + length word.now ≡ end }
    ensures written { drop result line.new ≡ word.now ++ drop end line.old }
{
    let start = end - word.len();
    line[start..end].copy_from_slice(word);
    start
}
