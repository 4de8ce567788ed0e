// A text read line by line: a reader that holds the text and a position. It assumes nothing of what it reads.
//
// A line's part has its line feed; the last part has none where the text does not end in one. Past the end every part is empty.
#![tactic(auto)]

ghost use Rattle.std.specs.Prelude.{◌≡◌, drop};
ghost use Rattle.job_lines.specs.Lines.{line_length, past_line, first_line, between};
ghost use Rattle.job_lines.specs.Reader.{moved};

pub const LINE_FEED: u8 = b'\n';

#[derive(Clone, Copy)]
pub struct Lines<'a> {
    pub text: &'a [u8],
    pub at: usize,
}

// A line's part, and the reader moved on behind it.
#[derive(Clone, Copy)]
pub struct Line<'a> {
    pub part: &'a [u8],
    pub rest: Lines<'a>,
}

// How long the first line is, with its line feed; the whole length where no line feed is left.
fn line_length(rest: &[u8]) -> usize
    ensures { result ≡ line_length rest.now }
{
    match rest.iter().position(|c| *c == LINE_FEED) {
        Some(n) => n + 1,
        None => rest.len(),
    }
}

// The place past the next line feed from `at` on; the text's end where no line feed is left, and `at` itself past that.
pub fn past_line(text: &[u8], at: usize) -> usize
    ensures { result ≡ past_line text.now at }
{
    if text.len() < at {
        return at;
    }
    at + line_length(&text[at..])
}

// The text from `at` up to `end`; nothing where that is not inside it.
pub fn between(text: &[u8], at: usize, end: usize) -> &[u8]
    ensures { result.now ≡ between at end text.now }
{
    text.get(at..end).unwrap_or(&[])
}

impl<'a> Lines<'a> {
    // The next line's part, and the reader moved on.
    pub fn next(self) -> Line<'a>
        ensures { (result.part.now ≡ first_line (drop self.entry.at self.entry.text.now)) × (result.rest ≡ moved self.entry) }
    {
        let text = self.text;
        let at = self.at;
        let end = past_line(text, at);
        let part = between(text, at, end);
        Line {
            part,
            rest: Lines { text, at: end },
        }
    }
}

// The line from `at` on, by a reader.
pub fn next_line<'a>(text: &'a [u8], at: usize) -> &'a [u8]
    ensures { result.now ≡ first_line (drop at text.now) }
{
    let line = Lines { text, at }.next();
    line.part
}
