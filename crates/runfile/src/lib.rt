// The run file, and its reader, which says of any bytes what run they are the file of, or what fault they have. Each function that reads takes
// any input.
#![tactic(auto)]

mod read;

ghost use Rattle.std.specs.Prelude.{◌≡◌};
ghost use Rattle.runfile.specs.File.{code_of, read_file};
ghost use Rattle.runfile.specs.Head.{opened_of};
ghost use Rattle.runfile.specs.Parts.{steps_start, StepsPart, step_at};

pub use crate::read::{fields_sound, mask_sound};
use kinds::Step;

// What a file or a run is refused for, under the paper's numbers: an item that is not wholly there, a count out of its range, a mask, a field
// that its kind does not use, bytes left over, and an output too short to write to.
#[derive(Clone, Copy, PartialEq, Eq, Debug)]
pub enum Fault {
    Short = 32,
    Count = 33,
    Mask = 34,
    Field = 35,
    LeftOver = 36,
    Room = 37,
}

impl Fault {
    pub fn code(self) -> u8
        ensures { result ≡ code_of self }
    {
        self as u8
    }
}

// A run without its steps: entries past the counts are 0.
#[derive(Clone, Copy)]
pub struct Head {
    pub nodes: u8,
    pub cells: u8,
    pub steps: u16,
    pub counters: [u32; 8],
    pub masks: [u8; 32],
    pub values: [u32; 32],
}

// What any bytes of any length come to: the run that they are the file of, or their first fault by place. The steps are judged where they
// stand and are not copied.
#[tactic(auto, using(crate::proofs::Opening::open_over))]
pub fn open(file: &[u8]) -> Result<Head, Fault>
    ensures { result ≡ opened_of (read_file file.now) }
{
    let head = read::front_of(file)?;
    let part = little::tail(file, steps_start(head.nodes, head.cells));
    let count = usize::from(head.steps);
    read::check_steps(part, count)?;
    if 8 * count < part.len() {
        return Err(Fault::LeftOver);
    }
    Ok(head)
}

// ---- the steps section

fn steps_start(nodes: u8, cells: u8) -> usize
    ensures { result ≡ steps_start nodes cells }
{
    4 + 4 * usize::from(nodes) + 5 * usize::from(cells)
}

// The steps section of a file with these counts: that very part of the caller's bytes, or the empty part at their end where there is no
// such part.
pub fn steps(file: &[u8], nodes: u8, cells: u8, count: u16) -> &[u8]
    ensures { StepsPart file.entry nodes cells count result }
{
    let start = steps_start(nodes, cells);
    let end = start + 8 * usize::from(count);
    if end <= file.len() {
        &file[start..end]
    } else {
        &file[file.len()..]
    }
}

// Step i of a steps section, or none where it is not wholly there.
pub fn step_at(part: &[u8], i: usize) -> Option<Step>
    ensures { result ≡ step_at part.now i }
{
    if part.len() / 8 <= i {
        return None;
    }
    let at = 8 * i;
    let value = little::read(part, at + 4, 4)?;
    Some(Step {
        kind: part[at],
        slot: part[at + 1],
        node: part[at + 2],
        cell: part[at + 3],
        value,
    })
}
