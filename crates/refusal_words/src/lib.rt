// A refusal by its number, and what a refusal of a load file means, in words. Each public function takes any input.
#![tactic(auto)]

ghost use Rattle.std.specs.Prelude.{◌≡◌};
ghost use Rattle.text.specs.Writing.{laid_at, behind};
ghost use Rattle.refusal_words.specs.Words.{file_words, refused_text};

// The words of a number and a newline, from a place on; the place behind them.
pub fn put_file_words(out: &mut [u8], at: usize, n: u8) -> usize
    ensures result { result ≡ behind out.old at (file_words n) }
    ensures out_left { out.new ≡ laid_at out.old at (file_words n) }
{
    if n == 31 {
        return text::put_text(out, at, b"a block's check is wrong\n");
    }
    if n == 32 {
        return text::put_text(
            out,
            at,
            b"a block's letter is none, or not the first block's\n",
        );
    }
    if n == 33 {
        return text::put_text(out, at, b"a block's number or count is wrong\n");
    }
    if n == 34 {
        return text::put_text(out, at, b"a block's used count or padding is wrong\n");
    }
    if n == 35 {
        return text::put_text(out, at, b"the file's letter is not the one asked for\n");
    }
    if n == 38 {
        return text::put_text(
            out,
            at,
            b"a block of the file is blank, not damaged: it was never loaded\n",
        );
    }
    text::put_text(out, at, b"as the list of numbers says\n")
}

// A refusal by its number, from a place on; the place behind it.
pub fn put_refused(out: &mut [u8], at: usize, n: u8) -> usize
    ensures result { result ≡ behind out.old at (refused_text n) }
    ensures out_left { out.new ≡ laid_at out.old at (refused_text n) }
{
    let a = text::put_text(out, at, b"refused ");
    text::put_decimal(out, a, n as u32)
}
