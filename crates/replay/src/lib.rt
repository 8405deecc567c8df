// A run file in, the lines of its run out: what the run program prints, into bytes that the caller lends.
#![tactic(auto)]

mod front;

ghost use Rattle.std.specs.Prelude.{◌≡◌, ◌++◌, ◌+◌, ◌≤◌, leb, length};
ghost use Rattle.text.specs.Text.{placed};
ghost use Rattle.runfile.specs.File.{read_file};
ghost use Rattle.listing.specs.Listing.{fresh_of};
ghost use Rattle.replay.specs.Replay.{front_of, text_of};
ghost use Rattle.replay.specs.Plays.{Plays};
ghost use Rattle.listing.specs.Going.{lines_to};

use runfile::Head;

// No text is longer, so that an output of this size need not be measured first.
const LONGEST: usize = 122894;

// Does the text of a run fit. Its lines are gone through only where that is not sure.
fn fits(h: Head, part: &[u8], out: &mut [u8], start: usize) -> bool
    requires { Plays h part.now × (start ≡ length (front_of h)) × (start ≤ 37) }
    ensures { (result ≡ leb (start + length (lines_to (fresh_of h) part.now h.steps)) (length out.old))
        × (out.new ≡ out.old) }
{
    if LONGEST <= out.len() {
        return true;
    }
    let size = listing::walk(h, part, out, start, false);
    size <= out.len()
}

// The text of a run, or nothing where it doesn't fit; its length in either case.
fn run(h: Head, part: &[u8], out: &mut [u8]) -> usize
    requires { Plays h part.now }
    ensures { (result ≡ length (front_of h ++ lines_to (fresh_of h) part.now h.steps))
        × (out.new ≡ placed out.old 0 (front_of h ++ lines_to (fresh_of h) part.now h.steps)) }
{
    let start = front::size(h);
    if fits(h, part, out, start) {
        front::put(h, out);
        listing::walk(h, part, out, start, true)
    } else {
        listing::walk(h, part, out, start, false)
    }
}

// What any bytes of any length come to as a run file: the text of its run from fresh, or of its fault. Returns the text's length. The text
// stands at the front of the output and no byte beyond is touched; where it doesn't fit, nothing is written.
pub fn replay(file: &[u8], out: &mut [u8]) -> usize
    ensures { (result ≡ length (text_of (read_file file.now)))
        × (out.new ≡ placed out.old 0 (text_of (read_file file.now))) }
{
    match runfile::open(file) {
        Ok(h) => {
            let part = runfile::steps(file, h.nodes, h.cells, h.steps);
            run(h, part, out)
        }
        Err(fault) => front::refused(fault.code(), out),
    }
}
