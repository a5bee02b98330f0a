#![tactic(auto)]

ghost use Rattle.std.specs.Prelude.{◌≡◌, true, [], ◌∷◌, ◌++◌, ◌+◌, ◌-◌, ◌<◌, ◌≤◌, length, get_or};
ghost use Rattle.forms.specs.Form.{I, F1, F3, decimal, numeral, signed, dot};
ghost use Rattle.forms.specs.Read.{read_field, is_number};
ghost use Rattle.forms.specs.Columns.{columns, first_not_blank, further};
ghost use Rattle.forms.specs.Rows.{three_at, six_of};
ghost use Rattle.forms.specs.Bytes.{is_digit, may_precede, has_minus, Small};

// ---- A field that is read

pub fn is_digit(b: u8) -> bool
    ensures { result ≡ is_digit b }
{
    b.is_ascii_digit()
}

// Whether b may stand in a number right before the byte `next`.
pub fn may_precede(b: u8, next: u8) -> bool
    ensures { result ≡ may_precede b next }
{
    (b == b' ') | (((b == b'-') | is_digit(b)) & is_digit(next))
}

// Whether f is a number of the form In. No branch per byte: nearly all bytes of a file pass here.
pub fn is_int(f: &[u8]) -> bool
    ensures { result ≡ is_number (read_field I f.now) }
{
    if f.len() == 0 {
        return false;
    }
    let last = f.len() - 1;
    let mut ok = true;
    for i in 0..last {
        ok = ok & may_precede(f[i], f[i + 1]);
    }
    ok & is_digit(f[last])
}

// What a digit counts; a blank and a minus count 0.
fn low(b: u8) -> u64
    ensures { result ≡ b - 48 }
{
    u64::from(b.saturating_sub(b'0'))
}

// The number that the digits of f make, written after the number acc.
fn numeral_of(f: &[u8], acc: u64) -> u64
    requires { (length f.now ≤ 9) × (acc < 1000000000) }
    ensures { result ≡ numeral acc f.now }
{
    let mut n = acc;
    for &b in f {
        n = n * 10 + low(b);
    }
    n
}

fn has_minus(f: &[u8]) -> bool
    ensures { result ≡ has_minus f.now }
{
    f.contains(&b'-')
}

fn signed_of(minus: bool, n: u64) -> i32
    requires { n < 1000000000 }
    ensures { result ≡ signed minus n }
{
    kit::with_sign(minus, n) as i32
}

// The number of a field that is one.
pub fn int_value(f: &[u8]) -> i32
    requires { (length f.now ≤ 9) × (is_number (read_field I f.now) ≡ true) }
    ensures { Some result ≡ read_field I f.now }
{
    signed_of(has_minus(f), numeral_of(f, 0))
}

// The form In.
fn read_int(f: &[u8]) -> Option<i32>
    requires { length f.now ≤ 9 }
    ensures { result ≡ read_field I f.now }
{
    if is_int(f) { Some(int_value(f)) } else { None }
}

// Whether f may stand before the digit d: the two make a number of the form In. So f may be blank, or end in a minus.
fn leads(f: &[u8], d: u8) -> bool
    ensures { result ≡ is_number (read_field I (f.now ++ (d ∷ []))) }
{
    let mut ok = is_digit(d);
    let mut next = d;
    for i in (0..f.len()).rev() {
        ok = may_precede(f[i], next) & ok;
        next = f[i];
    }
    ok
}

// With so many digits after the point: what may stand before the first of them, the point, digits.
fn is_decimal(f: &[u8], after: usize) -> bool
    requires { 0 < after }
    ensures { result ≡ is_number (read_field (decimal after) f.now) }
{
    if f.len() <= after {
        return false;
    }
    let k = f.len() - after - 1;
    let p = k + 1;
    leads(&f[..k], f[p]) & (f[k] == b'.') & is_int(&f[p..])
}

// The number of the bytes before the point and of those after it. The sign is the whole field's: `-0.5` and `-.5` are -5 tenths.
fn decimal_value(front: &[u8], part: &[u8]) -> i32
    requires { Small front.now part.now }
    ensures { result ≡ signed (has_minus front.now) (numeral (numeral 0 front.now) part.now) }
{
    let whole = numeral_of(front, 0);
    signed_of(has_minus(front), numeral_of(part, whole))
}

fn read_decimal(f: &[u8], after: usize) -> Option<i32>
    requires { (0 < after) × (length f.now ≤ 10) }
    ensures { result ≡ read_field (decimal after) f.now }
{
    if is_decimal(f, after) {
        let k = f.len() - after - 1;
        let p = k + 1;
        Some(decimal_value(&f[..k], &f[p..]))
    } else {
        None
    }
}

fn read_number(f: &[u8], after: usize) -> Option<i32>
    requires { length f.now ≤ 9 + dot after }
    ensures { result ≡ read_field (decimal after) f.now }
{
    if after == 0 {
        return read_int(f);
    }
    read_decimal(f, after)
}

// ---- The columns of a line, which may stop early

// The field in the n columns after the first a. A number's last column holds a digit, so a missing one makes it bad.
fn number_at(line: &[u8], a: usize, n: usize, after: usize) -> Option<i32>
    requires { (a ≤ 80) × (n ≤ 9 + dot after) }
    ensures { result ≡ read_field (decimal after) (columns line.now a n) }
{
    let e = a + n;
    if line.len() < e {
        return None;
    }
    read_number(&line[a..e], after)
}

pub fn int_at(line: &[u8], a: usize, n: usize) -> Option<i32>
    requires { (a ≤ 80) × (n ≤ 9) }
    ensures { result ≡ read_field I (columns line.now a n) }
{
    number_at(line, a, n, 0)
}

pub fn tenths_at(line: &[u8], a: usize, n: usize) -> Option<i32>
    requires { (a ≤ 80) × (n ≤ 10) }
    ensures { result ≡ read_field F1 (columns line.now a n) }
{
    number_at(line, a, n, 1)
}

// The form Fn.3, in thousandths.
pub fn thousandths_at(line: &[u8], a: usize, n: usize) -> Option<i32>
    requires { (a ≤ 80) × (n ≤ 10) }
    ensures { result ≡ read_field F3 (columns line.now a n) }
{
    number_at(line, a, n, 3)
}

// Three fields of six columns after the first a, or the first column of the first wrong one.
pub fn three_numbers(line: &[u8], a: usize, after: usize) -> Result<(i32, i32, i32), usize>
    requires { a ≤ 60 }
    ensures { result ≡ three_at (decimal after) line.now a }
{
    let x = number_at(line, a, 6, after).ok_or(a + 1)?;
    let y = number_at(line, a + 6, 6, after).ok_or(a + 7)?;
    let z = number_at(line, a + 12, 6, after).ok_or(a + 13)?;
    Ok((x, y, z))
}

// The six fields I6 of an epoch, likewise.
pub fn six_numbers(line: &[u8]) -> Result<(i32, i32, i32, i32, i32, i32), usize>
    ensures { result ≡ six_of line.now }
{
    let (a, b, c) = three_numbers(line, 0, 0)?;
    let (d, e, f) = three_numbers(line, 18, 0)?;
    Ok((a, b, c, d, e, f))
}

// The byte after the first i columns.
pub fn byte_at(line: &[u8], i: usize) -> u8
    ensures { result ≡ get_or line.now i 32 }
{
    if i < line.len() {
        return line[i];
    }
    b' '
}

// Text, as it stands in the columns after the first a.
pub fn text_into(line: &[u8], a: usize, out: &mut [u8])
    requires { a + length out.old ≤ 80 }
    ensures { out.new ≡ columns line.now a (length out.old) }
{
    for i in 0..out.len() {
        out[i] = byte_at(line, a + i);
    }
}

// The N columns after the first a.
pub fn text<const N: usize>(line: &[u8], a: usize) -> [u8; N]
    requires { a + N ≤ 80 }
    ensures { result ≡ columns line.now a N }
{
    let mut out = [b' '; N];
    text_into(line, a, &mut out);
    out
}

// Columns a + 1 to e must be blank: the first of them that is not.
pub fn first_not_blank(line: &[u8], a: usize, e: usize) -> Option<usize>
    ensures { result ≡ further (a + 1) (first_not_blank (columns line.now a (e - a))) }
{
    for i in a..e {
        if byte_at(line, i) != b' ' {
            return Some(i + 1);
        }
    }
    None
}
