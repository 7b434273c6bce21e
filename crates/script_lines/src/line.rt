//! The lines of a script, and their words.

ghost use Rattle.std.specs.Prelude.{◌≡◌, ◌≤◌, ◌==◌, length, not};
ghost use Rattle.std.specs.List.{prefix_len};
ghost use Rattle.form_meanings.specs.Words.{Gives};
ghost use Rattle.edit_rules.specs.Script.{five_words, four_words, is_blank, line_words, no_words, one_word, past, three_words, trimmed, two_words};
ghost use Rattle.script_lines.specs.Parts.{IsNextLine, IsNextWord};

use bstr::ByteSlice;

/// Whether words are parted by this byte.
fn is_blank(byte: u8) -> bool
    ensures { result ≡ is_blank byte }
{
    byte == b' ' || byte == b'\t'
}

/// How many blanks a line begins with.
fn blanks(line: &[u8]) -> usize
    ensures all { result ≡ prefix_len is_blank line.now }
    ensures within { result ≤ length line.now }
{
    let mut count = 0;
    for byte in line {
        if !is_blank(*byte) {
            return count;
        }
        count += 1;
    }
    count
}

/// How many bytes stand before the first blank.
fn word_len(line: &[u8]) -> usize
    ensures all { result ≡ prefix_len (λ b. not (is_blank b)) line.now }
    ensures within { result ≤ length line.now }
{
    let mut count = 0;
    for byte in line {
        if is_blank(*byte) {
            return count;
        }
        count += 1;
    }
    count
}

/// How many bytes stand before the first line feed.
fn line_len(text: &[u8]) -> usize
    ensures all { result ≡ prefix_len (λ b. not (b == 10)) text.now }
    ensures within { result ≤ length text.now }
{
    match text.find_byte(b'\n') {
        Some(len) => len,
        None => text.len(),
    }
}

/// A line without the blanks that it begins with.
pub fn without_blanks(line: &[u8]) -> &[u8]
    ensures { result.now ≡ past is_blank line.now }
{
    &line[blanks(line)..]
}

/// The first word of a line, and the line behind it.
pub fn next_word(line: &[u8]) -> Option<(&[u8], &[u8])>
    ensures { IsNextWord line.now result }
{
    let words = without_blanks(line);
    let len = word_len(words);
    if len == 0 {
        return None;
    }
    Some((&words[..len], &words[len..]))
}

/// Whether a line has no word.
pub fn no_words(line: &[u8]) -> bool
    ensures { result ≡ no_words (line_words line.now) }
{
    next_word(line).is_none()
}

/// The word of a line that has one.
pub fn one_word(line: &[u8]) -> Option<&[u8]>
    ensures { Gives (λ w. w.now) result (one_word (line_words line.now)) }
{
    let (first, line) = next_word(line)?;
    match next_word(line) {
        None => Some(first),
        Some(_) => None,
    }
}

/// The words of a line that has two.
pub fn two_words(line: &[u8]) -> Option<(&[u8], &[u8])>
    ensures { Gives (λ w. (w.0.now, w.1.now)) result (two_words (line_words line.now)) }
{
    let (first, line) = next_word(line)?;
    let (second, line) = next_word(line)?;
    match next_word(line) {
        None => Some((first, second)),
        Some(_) => None,
    }
}

/// The words of a line that has three.
pub fn three_words(line: &[u8]) -> Option<(&[u8], &[u8], &[u8])>
    ensures { Gives (λ w. (w.0.now, w.1.now, w.2.now)) result (three_words (line_words line.now)) }
{
    let (first, line) = next_word(line)?;
    let (second, line) = next_word(line)?;
    let (third, line) = next_word(line)?;
    match next_word(line) {
        None => Some((first, second, third)),
        Some(_) => None,
    }
}

/// The words of a line that has four.
pub fn four_words(line: &[u8]) -> Option<(&[u8], &[u8], &[u8], &[u8])>
    ensures { Gives (λ w. (w.0.now, w.1.now, w.2.now, w.3.now)) result (four_words (line_words line.now)) }
{
    let (first, line) = next_word(line)?;
    let (second, line) = next_word(line)?;
    let (third, line) = next_word(line)?;
    let (fourth, line) = next_word(line)?;
    match next_word(line) {
        None => Some((first, second, third, fourth)),
        Some(_) => None,
    }
}

/// The words of a line that has five.
pub fn five_words(line: &[u8]) -> Option<(&[u8], &[u8], &[u8], &[u8], &[u8])>
    ensures { Gives (λ w. (w.0.now, w.1.now, w.2.now, w.3.now, w.4.now)) result (five_words (line_words line.now)) }
{
    let (first, line) = next_word(line)?;
    let (second, line) = next_word(line)?;
    let (third, line) = next_word(line)?;
    let (fourth, line) = next_word(line)?;
    let (fifth, line) = next_word(line)?;
    match next_word(line) {
        None => Some((first, second, third, fourth, fifth)),
        Some(_) => None,
    }
}

/// A line without the carriage return before its line feed.
fn trimmed(line: &[u8]) -> &[u8]
    ensures { result.now ≡ trimmed line.now }
{
    let len = line.len();
    if len == 0 {
        return line;
    }
    if line[len - 1] == b'\r' {
        return &line[..len - 1];
    }
    line
}

/// The first line of a text without its end, and the text behind its line feed, where it has one.
pub fn next_line(text: &[u8]) -> (&[u8], Option<&[u8]>)
    ensures { IsNextLine text.now result.0.now result.1 }
{
    let len = line_len(text);
    if len == text.len() {
        return (text, None);
    }
    (trimmed(&text[..len]), Some(&text[len + 1..]))
}
