// A knot and a temperature written as text, from a place on. Each public function takes any input.
#![tactic(auto)]

ghost use Rattle.std.specs.Prelude.{◌≡◌, pos, int_lt, unsigned_abs};
ghost use Rattle.text.specs.Writing.{laid_at, behind};
ghost use Rattle.reading_print.specs.Texts.{signed_text, knot_text, is_under, size_shown, whole_of, tenths_shown, temperature_text};

// A number with a minus before it where it is negative, from a place on; the place behind it.
fn put_signed(out: &mut [u8], at: usize, negative: bool, n: u32) -> usize
    ensures result { result ≡ behind out.old at (signed_text negative n) }
    ensures out_left { out.new ≡ laid_at out.old at (signed_text negative n) }
{
    if negative {
        let next = text::put_text(out, at, b"-");
        return text::put_decimal(out, next, n);
    }
    text::put_decimal(out, at, n)
}

// The size of a signed number, and whether it is negative.
fn size(z: i32) -> u32
    ensures { result ≡ unsigned_abs z }
{
    if z < 0 {
        let d = -1 - z;
        return d as u32 + 1;
    }
    z as u32
}

fn negative(z: i32) -> bool
    ensures { result ≡ int_lt z (pos 0) }
{
    z < 0
}

// A knot's line from a place on: microvolts, a space, tenths of a degree, a newline; the place behind it.
pub fn put_knot(out: &mut [u8], at: usize, volts: i32, tenths: i16) -> usize
    ensures result { result ≡ behind out.old at (knot_text volts tenths) }
    ensures out_left { out.new ≡ laid_at out.old at (knot_text volts tenths) }
{
    let t = tenths as i32;
    let a = put_signed(out, at, negative(volts), size(volts));
    let b = text::put_text(out, a, b" ");
    let c = put_signed(out, b, negative(t), size(t));
    text::put_text(out, c, b"\n")
}

// A temperature in tenths that is shown with a minus.
fn is_under(t: f64) -> bool
    ensures { result ≡ is_under t }
{
    t <= -0.5
}

// Its size.
fn size_shown(t: f64) -> f64
    ensures { result ≡ size_shown t }
{
    if is_under(t) {
        return -t;
    }
    t
}

// The whole part of a number above -1 and below 2 to the 64, of any other 0.
fn whole(d: f64) -> u64
    ensures { result ≡ whole_of d }
{
    if d > -1.0 {
        if d < 18446744073709551616.0 {
            return std::num::truncating_f64_to_u64(d);
        }
        return 0;
    }
    0
}

// The whole tenths nearest to a temperature.
fn tenths_shown(t: f64) -> u32
    ensures { result ≡ tenths_shown t }
{
    let a = size_shown(t);
    let u = whole(a + a);
    if u < 4294967296 {
        return ((u + 1) / 2) as u32;
    }
    0
}

// A temperature in degrees with one decimal, from a place on; the place behind it.
pub fn put_temperature(out: &mut [u8], at: usize, t: f64) -> usize
    ensures result { result ≡ behind out.old at (temperature_text t) }
    ensures out_left { out.new ≡ laid_at out.old at (temperature_text t) }
{
    let n = tenths_shown(t);
    let a = put_signed(out, at, is_under(t), n / 10);
    let b = text::put_text(out, a, b".");
    let tenth = [b'0' + (n % 10) as u8];
    text::put_text(out, b, &tenth)
}
