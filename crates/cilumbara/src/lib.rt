// The library for firmware: functions over numbers and over bytes that the caller lends. Each takes any bytes and refuses what it must. C
// calls them by the same names, from the crate cilumbara_c.
#![tactic(auto)]

ghost use Rattle.std.specs.Prelude.{◌≡◌, ◌*◌, ◌≤◌, length};
ghost use Rattle.text.specs.Text.{placed};
ghost use Rattle.runfile.specs.File.{read_file};
ghost use Rattle.runwrite.specs.Writing.{written, file_of};
ghost use Rattle.listing.specs.Going.{steps_to};
ghost use Rattle.replay.specs.Replay.{text_of};
ghost use Rattle.cilumbara.specs.Library.{check_of, rewrite_of};

use kinds::Step;
use runfile::{Fault, Head};

// The text that the run program prints for a file, at the front of the output, or nothing where it doesn't fit. Returns the text's length.
pub fn cilumbara_replay(file: &[u8], out: &mut [u8]) -> usize
    ensures { (result ≡ length (text_of (read_file file.now)))
        × (out.new ≡ placed out.old 0 (text_of (read_file file.now))) }
{
    replay::replay(file, out)
}

// A file's first fault by place, where it has one.
pub fn cilumbara_check(file: &[u8]) -> Result<(), Fault>
    ensures { result ≡ check_of (read_file file.now) }
{
    runfile::open(file)?;
    Ok(())
}

// The steps of a steps section, each in its place of the table.
fn gather(part: &[u8], steps: &mut [Step])
    requires { 8 * length steps.old ≤ length part.now }
    ensures { steps.new ≡ steps_to part.now (length steps.old) }
{
    for i in 0..steps.len() {
        let Some(x) = runfile::step_at(part, i) else {
            return;
        };
        steps[i] = x;
    }
}

// Writes the run of a head and a steps section.
fn anew(h: Head, part: &[u8], out: &mut [u8]) -> Result<(), Fault>
    requires { (h.steps ≤ 4096) × (8 * h.steps ≤ length part.now) }
    ensures answer { result ≡ (written (file_of h (steps_to part.now h.steps)) out.old).answer }
    ensures bytes { out.new ≡ (written (file_of h (steps_to part.now h.steps)) out.old).out }
{
    let nothing = Step {
        kind: 0,
        slot: 0,
        node: 0,
        cell: 0,
        value: 0,
    };
    let mut table = [nothing; 4096];
    let steps = &mut table[..usize::from(h.steps)];
    gather(part, steps);
    runwrite::write(h, steps, out)
}

// Reads a file and writes its run anew: the same bytes at the front of the output. A fault, or an output that is too short, writes nothing.
pub fn cilumbara_rewrite(file: &[u8], out: &mut [u8]) -> Result<(), Fault>
    ensures answer { result ≡ (rewrite_of (read_file file.now) out.old).answer }
    ensures bytes { out.new ≡ (rewrite_of (read_file file.now) out.old).out }
{
    let h = runfile::open(file)?;
    let part = runfile::steps(file, h.nodes, h.cells, h.steps);
    anew(h, part, out)
}
