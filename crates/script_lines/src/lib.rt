// The lines of a script: a trace line, a line that opens a group, `( nnn`, and one that closes it, `)`, each with its newline.
#![tactic(auto)]

ghost use Rattle.std.specs.Prelude.{◌≡◌, drop};
ghost use Rattle.trace_lines.specs.Lines.{fits};
ghost use Rattle.script_lines.specs.Words.{open_form, close_form, is_traced, is_opening, is_closing, count_stated, word_in, is_ends};
ghost use Rattle.script_lines.specs.Words.{is_closes};

// What stands at the front of a text: nothing, no line of a script, a trace line, an opening line with its count, a closing line.
#[derive(Clone, Copy)]
pub enum Word {
    Ends,
    Bad,
    Traced,
    Opens(usize),
    Closes,
}

fn open_line(line: &[u8]) -> bool
    ensures { result ≡ fits open_form line.now }
{
    let n = line.len();
    (n == 6)
        & (common::nth(line, 0) == b'(')
        & (common::nth(line, 1) == b' ')
        & text::is_digit(common::nth(line, 2))
        & text::is_digit(common::nth(line, 3))
        & text::is_digit(common::nth(line, 4))
        & (common::nth(line, 5) == b'\n')
}

fn close_line(line: &[u8]) -> bool
    ensures { result ≡ fits close_form line.now }
{
    let n = line.len();
    (n == 2) & (common::nth(line, 0) == b')') & (common::nth(line, 1) == b'\n')
}

// Whether a text begins with a trace line.
pub fn is_traced(text: &[u8]) -> bool
    ensures { result ≡ is_traced text.now }
{
    if text.len() < 20 {
        return false;
    }
    trace_lines::is_line(&text[0..20])
}

// Whether it begins with an opening line, whatever the count.
pub fn is_opening(text: &[u8]) -> bool
    ensures { result ≡ is_opening text.now }
{
    if text.len() < 6 {
        return false;
    }
    open_line(&text[0..6])
}

// Whether it begins with a closing line.
pub fn is_closing(text: &[u8]) -> bool
    ensures { result ≡ is_closing text.now }
{
    if text.len() < 2 {
        return false;
    }
    close_line(&text[0..2])
}

// The count that an opening line states.
pub fn count(text: &[u8]) -> usize
    ensures { result ≡ count_stated text.now }
{
    let a = text::digit(common::nth(text, 2)) as usize;
    let b = text::digit(common::nth(text, 3)) as usize;
    let c = text::digit(common::nth(text, 4)) as usize;
    (a * 10 + b) * 10 + c
}

// The word at the front of a text, where so many lines may still come.
pub fn word_in(left: usize, text: &[u8]) -> Word
    ensures { result ≡ word_in left text.now }
{
    if text.len() == 0 {
        return Word::Ends;
    }
    if left == 0 {
        return Word::Bad;
    }
    if is_traced(text) {
        return Word::Traced;
    }
    if is_closing(text) {
        return Word::Closes;
    }
    if is_opening(text) {
        let n = count(text);
        if n == 0 {
            return Word::Bad;
        }
        return Word::Opens(n);
    }
    Word::Bad
}

// The word at a place of a text; past its end nothing is left.
pub fn word_at(left: usize, text: &[u8], at: usize) -> Word
    ensures { result ≡ word_in left (drop at text.now) }
{
    if text.len() < at {
        return Word::Ends;
    }
    word_in(left, &text[at..text.len()])
}

fn is_ends(w: Word) -> bool
    ensures { result ≡ is_ends w }
{
    matches!(w, Word::Ends)
}

fn is_closes(w: Word) -> bool
    ensures { result ≡ is_closes w }
{
    matches!(w, Word::Closes)
}

// Whether the text ends at a place.
pub fn ends_at(left: usize, text: &[u8], at: usize) -> bool
    ensures { result ≡ is_ends (word_in left (drop at text.now)) }
{
    is_ends(word_at(left, text, at))
}

// Whether a closing line stands at a place.
pub fn closes_at(left: usize, text: &[u8], at: usize) -> bool
    ensures { result ≡ is_closes (word_in left (drop at text.now)) }
{
    is_closes(word_at(left, text, at))
}
