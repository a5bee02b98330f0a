// The values on a line of a data block: I5, 16 to a line, the last line holding the rest and blanks.
#![tactic(auto)]

ghost use Rattle.std.specs.Prelude.{◌≡◌, ◌+◌, ◌-◌, ◌*◌, ◌<◌, ◌≤◌, false, length, take, drop, IfSome};
ghost use Rattle.forms.specs.Form.{signed};
ghost use Rattle.forms.specs.Read.{is_number};
ghost use Rattle.layout.specs.Text.{pad};
ghost use Rattle.reading.specs.Feed.{fault};
ghost use Rattle.reading.specs.Fields.{cells};
ghost use Rattle.read_values.specs.Values.{value_field, Judges, Values, Okay, list_of};
ghost use Rattle.read_values.specs.Quick.{fits_as, last_columns, Standing, Fitting, UsualRow};
ghost use Rattle.read_values.specs.Bare.{bare, Bares, BareRow, Lows, Paired, Plain};

use reading::Fault;

// 01's number of a field that is ill-formed, in which column it begins, or of a byte where blanks belong.
fn ill_formed(column: u64) -> Fault
    ensures { result ≡ fault 6 column }
{
    Fault { number: 6, column }
}

// Whether the k-th five columns hold a number. Nearly all bytes of a file pass here: no branch per byte.
fn is_value(line: &[u8], k: usize) -> bool
    requires { k < 16 }
    ensures { result ≡ is_number (value_field line.now k) }
{
    let a = k * 5;
    let e = a + 5;
    if line.len() < e {
        return false;
    }
    fields::is_int(&line[a..e])
}

fn values_in(line: &[u8], m: usize) -> Result<(), Fault>
    requires { (length line.now ≤ 80) × (m ≤ 16) }
    ensures { Values line.now m result }
{
    for k in 0..m {
        if !is_value(line, k) {
            return Err(ill_formed(k as u64 * 5 + 1));
        }
    }
    Ok(())
}

// Behind the last value all is blank; a byte that is not tells its own column.
fn rest_in(line: &[u8], m: usize) -> Result<(), Fault>
    requires { (length line.now ≤ 80) × (m ≤ 16) }
    ensures { Judges result (cells (m * 5 + 1) 0 (drop (m * 5) (pad line.now))) }
{
    let a = m * 5;
    if line.len() <= a {
        return Ok(());
    }
    let b = read_lines::blanks_in(&line[a..]);
    if a + b < line.len() {
        return Err(ill_formed((a + b) as u64 + 1));
    }
    Ok(())
}

fn cells_in(line: &[u8], m: usize) -> Result<(), Fault>
    requires { (length line.now ≤ 80) × (m ≤ 16) }
    ensures { Judges result (cells 1 m (pad line.now)) }
{
    values_in(line, m)?;
    rest_in(line, m)
}

// Where a field of a value line ends: 1 at its last column.
pub const ENDS: [u8; 80] =
    *b"00001000010000100001000010000100001000010000100001000010000100001000010000100001";

fn may_stand(b: u8, next: u8, last: bool) -> bool
    ensures { result ≡ fits_as b next last }
{
    (fields::may_precede(b, next) & !last) | (fields::is_digit(b) & last)
}

// Whether 16 bytes may stand in the columns from a on, each with the byte behind it. No branch per byte, so that vector code is made of it.
fn sixteen_stand(b: &[u8], ends: &[u8; 80], a: usize) -> bool
    requires { (length b.now ≡ 17) × (a ≤ 64) }
    ensures { Standing result b.now ends.now a }
{
    let mut ok = true;
    for j in 0..16 {
        ok = ok & may_stand(b[j], b[j + 1], ends[a + j] == b'1');
    }
    ok
}

// Where the next 16 of n bytes start, of which a are passed: the last 16 may overlap those before, so that they are no chunks.
fn sixteen_from(a: usize, n: usize) -> usize
    requires { (a < n) × (16 ≤ n) }
    ensures { (result ≤ a) × ((a < result + 16) × (result + 16 ≤ n)) }
{
    a.min(n - 16)
}

// Whether the first m fields are numbers, 16 bytes at a time. A no says nothing.
fn fields_fit(text: &[u8], ends: &[u8; 80], m: usize) -> bool
    requires { (m * 5 < length text.now) × ((m ≤ 16) × (ends.now ≡ last_columns)) }
    ensures { Fitting result text.now m }
{
    let n = m * 5;
    if n < 16 {
        return false;
    }
    let mut a = 0;
    while a < n {
        let s = sixteen_from(a, n);
        let f = s + 17;
        let ok = sixteen_stand(&text[s..f], ends, s);
        if !ok {
            return false;
        }
        a = s + 16;
    }
    true
}

// A row of m numbers that ends right behind them, as nearly all rows do, seen without a look for its end: where the next line starts.
// None says nothing.
pub fn usual_row(text: &[u8], ends: &[u8; 80], m: usize) -> Option<usize>
    requires { (0 < m) × ((m ≤ 16) × (ends.now ≡ last_columns)) }
    ensures { IfSome result (UsualRow text.now m) }
{
    let n = m * 5;
    if text.len() <= n {
        return None;
    }
    let z = read_lines::end_at(text, n)?;
    if !fields_fit(text, ends, m) {
        return None;
    }
    Some(n + z)
}

// The values of a row: by the fast test, or where that fails field by field, which finds the column.
pub fn row_at(text: &[u8], ends: &[u8; 80], at: usize, width: usize, m: usize) -> Result<(), Fault>
    requires { (at + width ≤ length text.now) × ((width ≤ 80) × ((m ≤ 16) × (ends.now ≡ last_columns))) }
    ensures { Judges result (cells 1 m (pad (take (at + width - at) (drop at text.now)))) }
{
    let e = at + width;
    if text.len() <= e {
        return cells_in(&text[at..e], m);
    }
    if width < m * 5 {
        return cells_in(&text[at..e], m);
    }
    if !fields_fit(&text[at..], ends, m) {
        return cells_in(&text[at..e], m);
    }
    rest_in(&text[at..e], m)
}

// ---- The second time over

// A byte of a number that has no minus.
fn is_bare(b: u8) -> bool
    ensures { result ≡ bare b }
{
    (b == b' ') | fields::is_digit(b)
}

// Whether 16 bytes are blanks and digits. No branch per byte, so that vector code is made of it.
fn sixteen_bare(b: &[u8]) -> bool
    requires { length b.now ≡ 16 }
    ensures { Bares result b.now 16 }
{
    let mut ok = true;
    for x in b {
        ok = ok & is_bare(*x);
    }
    ok
}

// Whether the first n bytes are blanks and digits, 16 at a time. A no says nothing.
fn all_bare(text: &[u8], n: usize) -> bool
    requires { n ≤ length text.now }
    ensures { Bares result text.now n }
{
    if n < 16 {
        return false;
    }
    let mut a = 0;
    while a < n {
        let s = sixteen_from(a, n);
        let e = s + 16;
        if !sixteen_bare(&text[s..e]) {
            return false;
        }
        a = e;
    }
    true
}

// A row of m fields of blanks and digits that ends right behind them: where the next line starts. None where it is not seen at once.
pub fn bare_row(text: &[u8], m: usize) -> Option<usize>
    requires { (0 < m) × (m ≤ 16) }
    ensures { IfSome result (BareRow text.now m) }
{
    let n = m * 5;
    if text.len() <= n {
        return None;
    }
    let z = read_lines::end_at(text, n)?;
    let i = n - 1;
    if text[i] == b' ' {
        return None;
    }
    if !all_bare(text, n) {
        return None;
    }
    Some(n + z)
}

fn low(b: u8) -> u8
    ensures { result ≡ b - 48 }
{
    b.saturating_sub(b'0')
}

// Two digits as a number, from each of 16 columns on. No branch per byte, so that vector code is made of it.
fn sixteen_pairs(line: &[u8], s: usize, p: &mut [u8])
    requires { (s ≤ 64) × ((s + 16 < length line.now) × ((length p.old ≡ 80) × (Lows line.now (s + 16) × Paired line.now p.old s))) }
    ensures { Paired line.now p.new (s + 16) }
{
    let e = s + 16;
    for j in s..e {
        p[j] = low(line[j]) * 10 + low(line[j + 1]);
    }
}

fn pairs_in(line: &[u8], n: usize, p: &mut [u8])
    requires { (16 ≤ n) × ((n ≤ 80) × ((n < length line.now) × ((length p.old ≡ 80) × Lows line.now n))) }
    ensures { Paired line.now p.new n }
{
    let mut a = 0;
    while a < n {
        let s = sixteen_from(a, n);
        sixteen_pairs(line, s, p);
        a = s + 16;
    }
}

fn wide(b: u8) -> u64
    ensures { result ≡ b }
{
    b as u64
}

// The number of two pairs of digits and a last one.
fn five_digits(front: u8, back: u8, last: u8) -> u64
    requires { 48 ≤ last }
    ensures { result ≡ front * 1000 + back * 10 + (last - 48) }
{
    wide(front) * 1000 + wide(back) * 10 + (wide(last) - 48)
}

fn positive(n: u64) -> i32
    requires { n < 1000000000 }
    ensures { result ≡ signed false n }
{
    kit::with_sign(false, n) as i32
}

// The values of a judged row that has no minus, as many as `out` holds: its form was seen the first time over.
pub fn fill_bare(line: &[u8], out: &mut [i32])
    requires { (length out.old ≤ 16) × (Plain line.now (length out.old) × Okay (cells 1 (length out.old) (pad (take (length out.old * 5) line.now)))) }
    ensures { out.new ≡ list_of (cells 1 (length out.old) (pad (take (length out.old * 5) line.now))) }
{
    let m = out.len();
    let n = m * 5;
    let mut p = [0u8; 80];
    pairs_in(line, n, &mut p);
    for k in 0..m {
        let a = k * 5;
        out[k] = positive(five_digits(p[a], p[a + 2], line[a + 4]));
    }
}

// The values of a line that is judged, as many as `out` holds.
pub fn fill_row(line: &[u8], out: &mut [i32])
    requires { (length line.now ≤ 80) × ((length out.old ≤ 16) × Okay (cells 1 (length out.old) (pad line.now))) }
    ensures { out.new ≡ list_of (cells 1 (length out.old) (pad line.now)) }
{
    let m = out.len();
    for k in 0..m {
        let a = k * 5;
        let e = a + 5;
        out[k] = fields::int_value(&line[a..e]);
    }
}
