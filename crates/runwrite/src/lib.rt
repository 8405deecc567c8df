// The writer of run files: it makes the one file of a run. It takes any input.
#![tactic(auto)]

mod put;

ghost use Rattle.std.specs.Prelude.{◌≡◌};
ghost use Rattle.runwrite.specs.Writing.{word_of, file_of, written};

use kinds::Step;
use runfile::{Fault, Head};

// A step as the one number that its eight bytes are, the least first.
pub fn pack(x: Step) -> u64
    ensures { result ≡ word_of x }
{
    u64::from(x.kind)
        + 256 * u64::from(x.slot)
        + 65536 * u64::from(x.node)
        + 16777216 * u64::from(x.cell)
        + 4294967296 * u64::from(x.value)
}

// Writes the file of a run from the front of the output on, or says the run's first fault by place, or that the output is too short. A
// refusal writes nothing, and no byte past the file is touched. As many steps as there are count, and the head's own count of steps is not
// looked at, so that no two parameters can contradict each other.
pub fn write(head: Head, steps: &[Step], out: &mut [u8]) -> Result<(), Fault>
    ensures answer { result ≡ (written (file_of head steps.now) out.old).answer }
    ensures bytes { out.new ≡ (written (file_of head steps.now) out.old).out }
{
    put::check(&head, steps)?;
    if out.len() < put::size(&head, steps) {
        return Err(Fault::Room);
    }
    put::fill(&head, steps, out);
    Ok(())
}
