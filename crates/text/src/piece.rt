// Text in pieces: its lines, its words, and what stands before and after a mark.
ghost use Rattle.std.specs.Prelude.{◌≡◌, MatchOption, ◌==◌, position};
ghost use Rattle.std.specs.Char.{is_ascii_whitespace};
ghost use Rattle.std.specs.Iterator.{YieldsFirstRef, item_count};
ghost use Rattle.text.specs.Lines.{none, lines, lines_left};
ghost use Rattle.text.specs.Piece.{words, Whole, Parted};

// Where a byte stands first.
fn find(bytes: &[u8], mark: u8) -> Option<usize>
    ensures { result ≡ position (λ b. b == mark) bytes.now }
{
    bytes.iter().position(|b| *b == mark)
}

// The first piece, and what follows its mark; nothing, if there is no mark.
pub fn split_once(bytes: &[u8], mark: u8) -> Option<(&[u8], &[u8])>
    ensures { MatchOption result (Whole (λ b. b == mark) bytes.now) (λ x. Parted (λ b. b == mark) bytes.now x.0.now x.1.now) }
{
    let i = find(bytes, mark)?;
    Some((&bytes[..i], &bytes[i + 1..]))
}

// The lines of a text, as far as they are still to come. Not `split` of a slice: its clause tells the parts by runs of a test, and
// `lines` is the list of what is still to come.
#[derive(Drop)]
pub struct Lines<'a>(Option<&'a [u8]>);

impl<'a> Lines<'a> {
    pub fn of(text: &'a [u8]) -> Lines<'a>
        ensures { lines_left result.0 ≡ lines text.now }
    {
        Lines(Some(text))
    }
}

impl<'a> Iterator for Lines<'a> {
    type Item = &'a [u8];

    ghost next_gives = { YieldsFirstRef (λ s. lines_left s.0) };

    ghost remaining = { item_count (λ s. lines_left s.0) };

    fn next(&mut self) -> Option<&'a [u8]> {
        let rest = self.0?;
        match split_once(rest, b'\n') {
            Some((line, after)) => {
                self.0 = Some(after);
                Some(line)
            }
            None => {
                self.0 = None;
                Some(rest)
            }
        }
    }
}

// Where a blank stands first: `find` with another test, and as short as a call of one function for both.
fn find_blank(bytes: &[u8]) -> Option<usize>
    ensures { result ≡ position is_ascii_whitespace bytes.now }
{
    bytes.iter().position(|b| b.is_ascii_whitespace())
}

// The words of a line, as far as they are still to come.
#[derive(Clone, Copy)]
pub struct Words<'a>(pub &'a [u8]);

impl<'a> Iterator for Words<'a> {
    type Item = &'a [u8];

    ghost next_gives = { YieldsFirstRef (λ s. words s.0.now) };

    ghost remaining = { item_count (λ s. words s.0.now) };

    fn next(&mut self) -> Option<&'a [u8]> {
        let text = self.0.trim_ascii_start();
        if text.is_empty() {
            return None;
        }
        let end = find_blank(text).unwrap_or(text.len());
        let (word, after) = text.split_at(end);
        self.0 = after;
        Some(word)
    }
}

// Whether a text has no word.
pub fn is_blank(text: &[u8]) -> bool
    ensures { result ≡ none (words text.now) }
{
    Words(text).next().is_none()
}
