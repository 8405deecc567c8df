// The lines of a run: each step is taken where it stands in the file, done, and its answer written as a line. A first pass may only count
// the bytes, so that nothing is written where the whole would not fit.
#![tactic(auto)]

ghost use Rattle.std.specs.Prelude.{◌≡◌, true, ◌+◌, ◌≤◌, length};
ghost use Rattle.group.specs.State.{state_of};
ghost use Rattle.group.specs.Answer.{said};
ghost use Rattle.listing.specs.Listing.{line_for, fresh_of};
ghost use Rattle.listing.specs.Going.{Goes, lines_to, shown, said_by};

use chain::Chains;
use group::{Answer, Group, Tables};
use runfile::Head;

// The paper's code, number and value of an answer.
#[derive(Clone, Copy)]
struct Reply {
    code: u32,
    number: u32,
    value: u32,
}

impl From<Answer> for Reply {
    ghost from_gives = { λ a r. said_by r ≡ said a };

    fn from(a: Answer) -> Reply {
        let (code, number, value) = match a {
            Answer::Done(k) => (0, k, 0),
            Answer::Value { s, value } => (1, s, value),
            Answer::Wait(s) => (2, s, 0),
            Answer::Yes(k) => (3, k, 0),
            Answer::No(reason) => (4, reason, 0),
            Answer::Committed(k) => (5, k, 0),
            Answer::Aborted => (6, 0, 0),
            Answer::Cut => (7, 0, 0),
            Answer::Refused(code) => (code, 0, 0),
        };
        Reply {
            code,
            number,
            value,
        }
    }
}

// The line of step i, written or only counted.
#[tactic(auto, using(text::proofs::Placed::after_in), unfolding(crate::specs::Listing::line_for))]
fn put_line(out: &mut [u8], at: usize, write: bool, i: u32, a: Answer) -> usize
    requires { (at ≤ 200000) × (write ≡ true → at + length (line_for i a) ≤ length out.old) }
    ensures { (result ≡ at + length (line_for i a)) × (out.new ≡ shown write out.old at (line_for i a)) }
{
    let w = Reply::from(a);
    if write {
        text::line(out, at, i, w.code, w.number, w.value)
    } else {
        at + text::line_size(i, w.code, w.number, w.value)
    }
}

// Goes through the steps from a state, and returns the place past the last line.
fn lines(
    g: &mut Group,
    tables: &mut Tables,
    part: &[u8],
    count: usize,
    out: &mut [u8],
    start: usize,
    write: bool,
) -> usize
    requires { Goes (state_of g.old tables.old) part.now count
        × (start ≤ 64)
        × (write ≡ true → start + length (lines_to (state_of g.old tables.old) part.now count) ≤ length out.old) }
    ensures { (result ≡ start + length (lines_to (state_of g.old tables.old) part.now count))
        × (out.new ≡ shown write out.old start (lines_to (state_of g.old tables.old) part.now count)) }
{
    let mut at = start;
    for i in 0..count {
        let Some(x) = runfile::step_at(part, i) else {
            return at;
        };
        let answer = score::step_whole(g, tables, x);
        at = put_line(out, at, write, i as u32, answer);
    }
    at
}

// The lines of a run from fresh, whose steps stand in the part: written from the place `start` on, or only counted. Returns the place past
// the last.
pub fn walk(h: Head, part: &[u8], out: &mut [u8], start: usize, write: bool) -> usize
    requires { Goes (fresh_of h) part.now h.steps × (start ≤ 64)
        × (write ≡ true → start + length (lines_to (fresh_of h) part.now h.steps) ≤ length out.old) }
    ensures { (result ≡ start + length (lines_to (fresh_of h) part.now h.steps))
        × (out.new ≡ shown write out.old start (lines_to (fresh_of h) part.now h.steps)) }
{
    let mut tables = Tables {
        flight: [0; 256],
        chains: Chains {
            lens: [0; 256],
            versions: [0; 2048],
        },
        writes: [0; 1024],
        reads: [0; 1024],
    };
    let mut g = fresh::fresh(
        h.nodes,
        h.cells,
        &h.counters,
        &h.masks,
        &h.values,
        &mut tables,
    );
    let count = usize::from(h.steps);
    lines(&mut g, &mut tables, part, count, out, start, write)
}
