// The words of each number as a line in front of a lent slice, as far as that goes, and how far it came.
ghost use Rattle.std.specs.Prelude.{◌≡◌};
ghost use Rattle.text.specs.Writing.{laid_at, behind};
ghost use Rattle.c_words.specs.Words.{cycle_line, run_line, end_line, file_line, table_line, line_of};

fn lay(out: &mut [u8], line: &[u8]) -> usize
    ensures result { result ≡ behind out.old 0 line.now }
    ensures out_left { out.new ≡ laid_at out.old 0 line.now }
{
    text::put_text(out, 0, line)
}

// 0 to 9: no refusal, and those of a cycle.
fn lay_cycle(out: &mut [u8], n: u8) -> usize
    ensures result { result ≡ behind out.old 0 (cycle_line n) }
    ensures out_left { out.new ≡ laid_at out.old 0 (cycle_line n) }
{
    match n {
        0 => lay(out, b"no refusal, and the good end of a load\n"),
        1 => lay(
            out,
            b"no such device or mode here, P or E zero, or S not 1 to 100\n",
        ),
        2 => lay(out, b"the array is not as long as the part\n"),
        3 => lay(
            out,
            b"no state that a cycle leaves, or no record of a load\n",
        ),
        4 => lay(
            out,
            b"a level that is none here, or no such kind of cycle\n",
        ),
        5 => lay(out, b"the address is past the array\n"),
        6 => lay(out, b"a cut meets a residue that is too short\n"),
        7 => lay(out, b"what is written is no command here\n"),
        8 => lay(
            out,
            b"an array read in the block whose erase is suspended\n",
        ),
        _ => lay(out, b"an identifier read where there is none\n"),
    }
}

// 10 to 12: a loader's and a run's.
fn lay_run(out: &mut [u8], n: u8) -> usize
    ensures result { result ≡ behind out.old 0 (run_line n) }
    ensures out_left { out.new ≡ laid_at out.old 0 (run_line n) }
{
    match n {
        10 => lay(out, b"there is no such flash block\n"),
        11 => lay(
            out,
            b"a slice is not as long as the block, or counts not seven a trace\n",
        ),
        12 => lay(
            out,
            b"begun while something is awaited, running or suspended\n",
        ),
        _ => lay(out, b"\n"),
    }
}

// 20 to 25: the ends of a load.
fn lay_end(out: &mut [u8], n: u8) -> usize
    ensures result { result ≡ behind out.old 0 (end_line n) }
    ensures out_left { out.new ≡ laid_at out.old 0 (end_line n) }
{
    match n {
        20 => lay(out, b"65,535 polls, and the part is not ready\n"),
        21 => lay(out, b"ready with VPP low\n"),
        22 => lay(out, b"ready with both error bits\n"),
        23 => lay(out, b"the erase failed, or the boot block is locked\n"),
        24 => lay(out, b"the program failed, or the boot block is locked\n"),
        25 => lay(out, b"the verify read another byte\n"),
        _ => lay(out, b"\n"),
    }
}

// 30 to 38: a load file's; those of its blocks as refusal_words has them.
fn lay_file(out: &mut [u8], n: u8) -> usize
    ensures result { result ≡ behind out.old 0 (file_line n) }
    ensures out_left { out.new ≡ laid_at out.old 0 (file_line n) }
{
    match n {
        30 => lay(
            out,
            b"file length zero, over 114,688, no multiple of 512, or over the block's\n",
        ),
        36 => lay(out, b"the payload is empty or longer than 113,120 bytes\n"),
        37 => lay(out, b"the room lent is too short\n"),
        39 => lay(out, b"\n"),
        _ => refusal_words::put_file_words(out, 0, n),
    }
}

// 40 to 48: a table's, a store's, an interruption's and a report's.
fn lay_table(out: &mut [u8], n: u8) -> usize
    ensures result { result ≡ behind out.old 0 (table_line n) }
    ensures out_left { out.new ≡ laid_at out.old 0 (table_line n) }
{
    match n {
        40 => lay(
            out,
            b"the payload is no multiple of six, or has fewer than two knots\n",
        ),
        41 => lay(
            out,
            b"a knot's microvolts are out of range, or do not rise\n",
        ),
        42 => lay(out, b"the store has no file of that letter\n"),
        43 => lay(out, b"the files need more places than the main block has\n"),
        44 => lay(out, b"the main block is no proper store\n"),
        45 => lay(out, b"a read during an erase in the block that is loaded\n"),
        46 => lay(out, b"more than 4,096 reads in one interruption\n"),
        47 => lay(out, b"a report on more than 65,535 traces\n"),
        48 => lay(out, b"a trace of another device number than the report's\n"),
        _ => lay(out, b"\n"),
    }
}

// Of any number: where there is none, an empty line.
pub fn lay_line(out: &mut [u8], n: u8) -> usize
    ensures result { result ≡ behind out.old 0 (line_of n) }
    ensures out_left { out.new ≡ laid_at out.old 0 (line_of n) }
{
    if n < 10 {
        return lay_cycle(out, n);
    }
    if n < 20 {
        return lay_run(out, n);
    }
    if n < 30 {
        return lay_end(out, n);
    }
    if n < 40 {
        return lay_file(out, n);
    }
    lay_table(out, n)
}
