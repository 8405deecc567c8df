// Reads the bytes of an input, and prints what a run file comes to.
#![tactic(auto)]

ghost use Rattle.std.specs.Prelude.{◌≡◌, ◌<◌, ◌≤◌, length, take, IfOk, OnOk};
ghost use Rattle.std.specs.Io.{ReadsAtMost};
ghost use Rattle.std.specs.Io.KnownBytes.{Appends, Consumes, IsAtEnd};
ghost use Rattle.text.specs.Text.{placed};
ghost use Rattle.runfile.specs.File.{read_file};
ghost use Rattle.replay.specs.Replay.{text_of};
ghost use Rattle.show.specs.Show.{shown};

use std::io::{self, Read, Write};

// Reads until the space is full or the input ends, and returns how many bytes it put at the front of the space.
pub fn read_full<R: Read>(input: &mut R, space: &mut [u8]) -> io::Result<usize>
    ensures in_space { ReadsAtMost result space.new }
    ensures len { length space.new ≡ length space.old }
    ensures bytes { IfOk result (λ n. Consumes (R.remaining input.old) (R.remaining input.new) (take n space.new)) }
    ensures end { IfOk result (λ n. n < length space.new → IsAtEnd (R.remaining input.new)) }
{
    let mut done = 0;
    // a `while`, since a read takes as many bytes as it likes, and there is no range to go through
    while done < space.len() {
        let n = input.read(&mut space[done..])?;
        if n == 0 {
            break;
        }
        done += n;
    }
    Ok(done)
}

// The text of the file's run, or of its fault, to the writer. The space is for the text: nothing is printed where it is too short. What lies
// in the space, from which it is printed, does not hang on whether the writer takes it. No text has more than 122,894 bytes.
pub fn show<W: Write>(file: &[u8], space: &mut [u8], out: &mut W) -> io::Result<()>
    ensures text { space.new ≡ placed space.old 0 (text_of (read_file file.now)) }
    ensures longest { length (text_of (read_file file.now)) ≤ 122894 }
    ensures printed { OnOk result (Appends (W.contents out.old) (W.contents out.new) (shown (length space.old) (text_of (read_file file.now)))) }
{
    let size = replay::replay(file, space);
    if size <= space.len() {
        out.write_all(&space[..size])?;
    }
    Ok(())
}

#[cfg(test)]
mod tests;
