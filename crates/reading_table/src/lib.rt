// The table of a payload: its knots, the judgement of the whole, and the search in it. Each public function takes any input.
#![tactic(auto)]

ghost use Rattle.std.specs.Prelude.{◌≡◌, not, ◌-◌, ◌/◌, ◌≤◌, ◌<◌, length};
ghost use Rattle.std.specs.Int.Signed.{lt_z, le_z};
ghost use Rattle.reading_table.specs.Table.{signed32, signed16, word32, word16, volts_of, tenths_of, in_range, good_at, rises_to};
ghost use Rattle.reading_table.specs.Table.{rising_of, shape_wrong, table_number};
ghost use Rattle.reading_table.specs.Faults.{fault_of};
ghost use Rattle.reading_table.specs.Search.{seek_of};

// The microvolts of a knot of the payload.
fn volts_at(s: &[u8], i: usize) -> i32
    requires { i < length s.now / 6 }
    ensures { result ≡ volts_of s.now i }
{
    let at = 6 * i;
    i32::from_be_bytes([s[at], s[at + 1], s[at + 2], s[at + 3]])
}

// The tenths of a degree of a knot of the payload.
fn tenths_at(s: &[u8], i: usize) -> i16
    requires { i < length s.now / 6 }
    ensures { result ≡ tenths_of s.now i }
{
    let at = 6 * i;
    i16::from_be_bytes([s[at + 4], s[at + 5]])
}

// The same for any i: 0 past the last knot.
pub fn volts(s: &[u8], i: usize) -> i32
    ensures { result ≡ volts_of s.now i }
{
    if i < s.len() / 6 {
        return volts_at(s, i);
    }
    0
}

// Knot i's tenths of a degree, 0 past the last knot.
pub fn tenths(s: &[u8], i: usize) -> i16
    ensures { result ≡ tenths_of s.now i }
{
    if i < s.len() / 6 {
        return tenths_at(s, i);
    }
    0
}

// Microvolts between -10,000 and 80,000.
fn in_range(v: i32) -> bool
    ensures { result ≡ in_range v }
{
    (-10000..=80000).contains(&v)
}

// A knot's microvolts are in range.
fn in_range_at(s: &[u8], i: usize) -> bool
    requires { i < length s.now / 6 }
    ensures { result ≡ in_range (volts_of s.now i) }
{
    in_range(volts_at(s, i))
}

// A knot's microvolts are above those of the knot before.
fn climbs_at(s: &[u8], i: usize) -> bool
    requires { (1 ≤ i) × (i < length s.now / 6) }
    ensures { result ≡ lt_z (volts_of s.now (i - 1)) (volts_of s.now i) }
{
    volts_at(s, i - 1) < volts_at(s, i)
}

// A knot's microvolts are in range, and above those of the knot before.
fn good_at(s: &[u8], i: usize) -> bool
    requires { i < length s.now / 6 }
    ensures { result ≡ good_at s.now i }
{
    in_range_at(s, i) && (i == 0 || climbs_at(s, i))
}

// The microvolts of two knots are in range, and those of the second are above those of the first. For any i and j, as they are read.
pub fn rises_to(s: &[u8], i: usize, j: usize) -> bool
    ensures { result ≡ rises_to s.now i j }
{
    let u = volts(s, i);
    let v = volts(s, j);
    in_range(u) && in_range(v) && u < v
}

// Every knot is good: the first and the last are in range, and each is above the one before, so that all are in range.
fn rising(s: &[u8]) -> bool
    ensures { result ≡ rising_of s.now }
{
    let n = s.len() / 6;
    n == 0 || in_range_at(s, 0) && in_range_at(s, n - 1) && (1..n).all(|i| climbs_at(s, i))
}

// 40: the payload is no whole number of knots, or has fewer than two.
pub fn shape_wrong(s: &[u8]) -> bool
    ensures { result ≡ shape_wrong s.now }
{
    let n = s.len();
    (n % 6 != 0) | (n / 6 < 2)
}

// The judgement of a payload as a table: 40, then 41, or 0.
pub fn judge_table(payload: &[u8]) -> u8
    ensures { result ≡ table_number payload.now }
{
    if shape_wrong(payload) {
        return 40;
    }
    if !rising(payload) {
        return 41;
    }
    0
}

// The lower knot of the pair for x, by halving.
pub fn seek(s: &[u8], x: i32) -> usize
    ensures { result ≡ seek_of s.now x }
{
    let n = s.len() / 6;
    if n < 2 {
        return 0;
    }
    let mut lo = 0;
    let mut hi = n - 1;
    while lo + 1 < hi {
        let mid = lo + (hi - lo) / 2;
        let v = volts_at(s, mid);
        if v <= x {
            lo = mid;
        } else {
            hi = mid;
        }
    }
    lo
}

// The first knot whose microvolts are out of range or not above those of the knot before; where there is none, the number of knots.
pub fn first_fault(s: &[u8]) -> usize
    ensures { result ≡ fault_of s.now }
{
    let n = s.len() / 6;
    (0..n).find(|&i| !good_at(s, i)).unwrap_or(n)
}
