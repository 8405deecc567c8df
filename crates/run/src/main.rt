// Reads a run file on standard input and prints its run, or the code of its fault.
#![tactic(auto)]

ghost use Rattle.std.specs.Prelude.{◌≡◌, length, OnOk, IfSome};
ghost use Rattle.std.specs.Io.KnownBytes.{Appends};
ghost use Rattle.runfile.specs.File.{read_file};
ghost use Rattle.replay.specs.Replay.{text_of};

use std::io::{self, Read, Write};

fn space<const N: usize>() -> [u8; N]
    ensures { N ≡ length result }
{
    [0; N]
}

// What is printed is the text of all that the input holds, where that is known.
fn run<R: Read, W: Write>(input: &mut R, out: &mut W) -> io::Result<()>
    ensures { OnOk result (IfSome (R.remaining input.old)
        (λ xs. Appends (W.contents out.old) (W.contents out.new) (text_of (read_file xs)))) }
{
    // one byte more than the longest file has, so that a longer input is refused for its bytes left over and not cut
    let mut file = space::<32965>();
    // as long as the longest text
    let mut text = space::<122894>();
    let n = show::read_full(input, &mut file)?;
    show::show(&file[..n], &mut text, out)?;
    Ok(())
}

fn main(rt: HostRuntime) -> io::Result<()> {
    run(&mut rt.stdin(), &mut rt.stdout())
}
