// Reads IONEX text from standard input and prints it as canonical text, or one line that says why not.
#![tactic(auto)]

ghost use Rattle.std.specs.Prelude.{◌≡◌, ◌≤◌, length, IfOk};

use std::io;
use std::io::{Read, Stdin};

// How many bytes were read: all of the input, or as many as fill the buffer.
fn read_input(mut stdin: Stdin, buffer: &mut [u8]) -> io::Result<usize>
    ensures { IfOk result (λ n. n ≤ length buffer.new) }
{
    let mut n: usize = 0;
    while n < buffer.len() {
        match stdin.read(&mut buffer[n..])? {
            0 => return Ok(n),
            k => n += k,
        }
    }
    Ok(n)
}

// Prints what is answered of the text in the buffer's first n bytes.
fn print_answer(rt: &impl Print, buffer: &[u8], n: usize) -> io::Result<()>
    requires { (length buffer.now ≡ 32769) × (n ≤ 32769) }
{
    let mut tec = [0i32; 4000];
    let mut rms = [0i32; 4000];
    let mut height = [0i32; 4000];
    let mut exponents = [0i32; 4000];
    let mut epochs = [0u64; 300];
    let mut marks = [0u8; 300];
    let mut out = [0u8; 65536];
    let k = program_text::answer(
        buffer,
        n,
        &mut tec,
        &mut rms,
        &mut height,
        &mut exponents,
        &mut epochs,
        &mut marks,
        &mut out,
    );
    rt.write_all(&out[..k])
}

fn main(rt: HostRuntime) -> io::Result<()> {
    // one byte more than a text may have
    let mut buffer = [0u8; 32769];
    match read_input(rt.stdin(), &mut buffer) {
        Ok(n) => print_answer(&rt, &buffer, n),
        Err(_) => rt.write_all(b"input cannot be read\n"),
    }
}
