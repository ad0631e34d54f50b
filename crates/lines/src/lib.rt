// Document 01, "The deck file": the line reader, which keeps the bytes of the file together with its position.
#![tactic(auto)]

ghost use Rattle.std.specs.Prelude.{◌≡◌};
ghost use Rattle.text.specs.Lines.{Ends};
ghost use Rattle.lines.specs.Reader.{behind};

#[derive(Drop)]
pub struct LineReader<'a> {
    pub file: &'a [u8],
    pub at: usize,
}

// A reader that stands at a place of the file.
pub fn new<'a>(file: &'a [u8], at: usize) -> LineReader<'a>
    ensures { (result.file ≡ file.entry) × (result.at ≡ at) }
{
    LineReader { file, at }
}

// Where the reader stands.
pub fn position<'a>(r: LineReader<'a>) -> usize
    ensures { result ≡ r.entry.at }
{
    r.at
}

// The reader passes a line, and stands behind it; at the file's end it stays.
pub fn next_line<'s, 'a>(r: &'s mut LineReader<'a>)
    ensures { r.new ≡ behind r.old }
{
    r.at = text::line_end(r.file, r.at);
}

// Behind the line that starts at a, through a reader. It promises what text::line_end does.
pub fn line_end(file: &[u8], a: usize) -> usize
    ensures { Ends file.now a result }
{
    let mut r = new(file, a);
    next_line(&mut r);
    position(r)
}
