// Replays many files from one input, each after its length of four bytes, and prints what each comes to, one after the other.
#![tactic(auto)]

ghost use Rattle.std.specs.Prelude.{◌≡◌, length};

use std::io::{self, Read, Write};

fn space<const N: usize>() -> [u8; N]
    ensures { N ≡ length result }
{
    [0; N]
}

// The length that stands before the next file, if there is one.
fn next_size<R: Read>(input: &mut R) -> io::Result<Option<usize>> {
    let mut bytes = space::<4>();
    let n = show::read_full(input, &mut bytes)?;
    Ok(little::read(&bytes[..n], 0, 4).map(|size| size as usize))
}

// A file that fills the part, if the input has so many bytes more.
fn read_and_show<R: Read, W: Write>(
    input: &mut R,
    part: &mut [u8],
    text: &mut [u8],
    out: &mut W,
) -> io::Result<bool> {
    let n = show::read_full(input, part)?;
    if n < part.len() {
        return Ok(false);
    }
    show::show(part, text, out)?;
    Ok(true)
}

// One file more, or none.
fn one<R: Read, W: Write>(
    input: &mut R,
    file: &mut [u8],
    text: &mut [u8],
    out: &mut W,
) -> io::Result<bool> {
    match next_size(input)? {
        Some(size) if size <= file.len() => read_and_show(input, &mut file[..size], text, out),
        _ => Ok(false),
    }
}

// All of them: a million at most, so that it ends whatever the input is.
fn all<R: Read, W: Write>(
    input: &mut R,
    file: &mut [u8],
    text: &mut [u8],
    out: &mut W,
) -> io::Result<()> {
    for _ in 0..1000000 {
        if !one(input, file, text, out)? {
            break;
        }
    }
    Ok(())
}

fn main(rt: HostRuntime) -> io::Result<()> {
    // longer than the longest file, for inputs that are too long; and as long as the longest text
    let mut file = space::<65536>();
    let mut text = space::<122894>();
    all(&mut rt.stdin(), &mut file, &mut text, &mut rt.stdout())
}
