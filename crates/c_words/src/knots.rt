// A knot as numbers: whether it is there, whether it goes into its place, and its six bytes.
ghost use Rattle.std.specs.Prelude.{◌≡◌, ◌*◌, ◌/◌, ◌<◌, length};
ghost use Rattle.std.specs.Int.Signed.{le_z};
ghost use Rattle.common.specs.Lists.{overlaid};
ghost use Rattle.reading_table.specs.Table.{in_range};
ghost use Rattle.reading_text.specs.Tables.{six_of};
ghost use Rattle.c_words.specs.Knots.{there_of, tenths_fit, pack_number, bits_of};

// 1 where so many bytes have a knot at a place, else 0.
pub fn is_there(place: usize, n: usize) -> u8
    ensures { result ≡ there_of place n }
{
    if place < n / 6 {
        return 1;
    }
    0
}

fn at_most(a: i32, b: i32) -> bool
    ensures { result ≡ le_z a b }
{
    a <= b
}

// Microvolts between -10,000 and 80,000.
fn in_range(v: i32) -> bool
    ensures { result ≡ in_range v }
{
    let a = at_most(-10000, v);
    let b = at_most(v, 80000);
    a & b
}

// Tenths of a degree that 16 bits hold.
fn tenths_fit(t: i32) -> bool
    ensures { result ≡ tenths_fit t }
{
    let a = at_most(-32768, t);
    let b = at_most(t, 32767);
    a & b
}

// Why a knot does not go into a place of so many bytes, or 0.
pub fn pack_number(place: usize, microvolts: i32, tenths: i32, n: usize) -> u8
    ensures { result ≡ pack_number place microvolts tenths n }
{
    if in_range(microvolts) {
        if tenths_fit(tenths) {
            if place < n / 6 {
                return 0;
            }
            return 37;
        }
        return 255;
    }
    41
}

// A signed number's 32 bits.
fn bits(z: i32) -> u32
    ensures { result ≡ bits_of z }
{
    if z < 0 {
        let d = -1 - z;
        return 4294967295 - d as u32;
    }
    z as u32
}

// Six bytes become a knot.
fn put_six(out: &mut [u8], volts: u32, tenths: u32)
    requires { length out.old ≡ 6 }
    ensures { out.new ≡ six_of volts tenths }
{
    out[0] = (volts / 16777216 % 256) as u8;
    out[1] = (volts / 65536 % 256) as u8;
    out[2] = (volts / 256 % 256) as u8;
    out[3] = (volts % 256) as u8;
    out[4] = (tenths / 256 % 256) as u8;
    out[5] = (tenths % 256) as u8;
}

// A knot into a place that is there.
pub(crate) fn put_knot(place: usize, microvolts: i32, tenths: i32, payload: &mut [u8])
    requires { place < length payload.old / 6 }
    ensures { payload.new ≡ overlaid payload.old (6 * place) (six_of (bits_of microvolts) (bits_of tenths)) }
{
    let at = 6 * place;
    let end = at + 6;
    let v = bits(microvolts);
    let t = bits(tenths);
    put_six(&mut payload[at..end], v, t);
}
