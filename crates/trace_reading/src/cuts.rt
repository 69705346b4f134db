//! A text is cut behind its first line.

ghost use Rattle.std.specs.Prelude.{◌≡◌, ◌==◌, ◌≤◌, length};
ghost use Rattle.std.specs.List.{position_or_len};
ghost use Rattle.trace_reading.specs.Lines.{IsCut};

/// How many bytes stand before the first line feed.
fn line_len(text: &[u8]) -> usize
    ensures len { result ≡ position_or_len (λ byte. byte == 10) text.now }
    ensures within { result ≤ length text.now }
{
    text.iter().take_while(|byte| **byte != b'\n').count()
}

/// The first line with its line feed, and what is behind it; the whole text where it has no line feed.
pub(crate) fn cut_line(text: &[u8]) -> (&[u8], &[u8])
    ensures { IsCut text.now result.0.now result.1.now }
{
    let len = line_len(text);
    if len == text.len() {
        return (text, &[]);
    }
    text.split_at(len + 1)
}
