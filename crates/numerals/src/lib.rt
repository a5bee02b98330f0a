// Number fields, written.
#![tactic(auto)]

ghost use Rattle.std.specs.Prelude.{◌≡◌, ◌++◌, ◌+◌, ◌<◌, ◌≤◌, length, take, drop};
ghost use Rattle.forms.specs.Form.{I, W1, sign};
ghost use Rattle.forms.specs.Show.{digits, aligned, show_field};
ghost use Rattle.forms.specs.Bytes.{left_byte};

fn left_byte(n: u64, minus: bool) -> u8
    ensures { result ≡ left_byte n minus }
{
    if 0 < n {
        return 48 + (n % 10) as u8;
    }
    if minus { b'-' } else { b' ' }
}

// A whole number, right-aligned: the last digit always, to its left the other digits, the minus, blanks.
fn write_whole(out: &mut [u8], minus: bool, n: u64)
    requires { 0 < length out.old }
    ensures { out.new ≡ aligned (length out.old) (sign minus ++ digits 1 n) }
{
    let last = out.len() - 1;
    out[last] = 48 + (n % 10) as u8;
    let mut left = n / 10;
    let mut due = minus;
    for i in (0..last).rev() {
        out[i] = left_byte(left, due);
        due = (0 < left) & due;
        left = left / 10;
    }
}

// The form In.
fn write_int(out: &mut [u8], z: i32)
    requires { 0 < length out.old }
    ensures { out.new ≡ show_field I (length out.old) z }
{
    write_whole(out, z < 0, z.unsigned_abs() as u64);
}

// The form Fn.1, of tenths.
fn write_tenths(out: &mut [u8], z: i32)
    requires { 2 < length out.old }
    ensures { out.new ≡ show_field W1 (length out.old) z }
{
    let k = out.len() - 2;
    let n = z.unsigned_abs() as u64;
    write_whole(&mut out[..k], z < 0, n / 10);
    out[k] = b'.';
    out[k + 1] = 48 + (n % 10) as u8;
}

// Into the n columns after the first a.
pub fn put_int(line: &mut [u8], a: usize, n: usize, z: i32)
    requires { (0 < n) × (a + n ≤ length line.old) }
    ensures { line.new ≡ take a line.old ++ (show_field I n z ++ drop (a + n) line.old) }
{
    let e = a + n;
    write_int(&mut line[a..e], z);
}

pub fn put_tenths(line: &mut [u8], a: usize, n: usize, z: i32)
    requires { (2 < n) × (a + n ≤ length line.old) }
    ensures { line.new ≡ take a line.old ++ (show_field W1 n z ++ drop (a + n) line.old) }
{
    let e = a + n;
    write_tenths(&mut line[a..e], z);
}
