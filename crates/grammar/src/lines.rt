//! The lines of a text.

ghost use Rattle.std.specs.Prelude.{◌≡◌, not};
ghost use Rattle.grammar.specs.Lines.{is_statement, without_last_newline};

/// A text without the newline at its end, if it has one. Newlines part the lines of what is left.
pub fn without_last_newline(text: &[u8]) -> &[u8]
    ensures { result.now ≡ without_last_newline text.now }
{
    match text.last() {
        Some(b'\n') => &text[..text.len() - 1],
        _ => text,
    }
}

/// Whether a line is empty or a comment. It says nothing, but it has its number.
pub fn is_skipped(line: &[u8]) -> bool
    ensures { result ≡ not (is_statement line.now) }
{
    match line.first() {
        None => true,
        Some(byte) => *byte == b'#',
    }
}
