// The first line: a run's counts, or the fault of a file that is none.
ghost use Rattle.std.specs.Prelude.{◌≡◌, ◌≤◌, length};
ghost use Rattle.text.specs.Text.{placed};
ghost use Rattle.replay.specs.Replay.{front_of, refused_text};

use runfile::Head;

// How many bytes the line of a run's counts has.
pub(crate) fn size(h: Head) -> usize
    ensures { (result ≡ length (front_of h)) × (result ≤ 37) }
{
    7 + text::size(u32::from(h.nodes))
        + text::size(u32::from(h.cells))
        + text::size(u32::from(h.steps))
}

// The line of a run's counts, at the front of an output in which it fits.
pub(crate) fn put(h: Head, out: &mut [u8])
    requires { length (front_of h) ≤ length out.old }
    ensures { out.new ≡ placed out.old 0 (front_of h) }
{
    let first = text::bytes(out, 0, b"run ");
    let second = text::closed(out, first, u32::from(h.nodes), 32);
    let third = text::closed(out, second, u32::from(h.cells), 32);
    text::closed(out, third, u32::from(h.steps), 10);
}

// The text of a fault, or nothing where it doesn't fit; its length in either case.
pub(crate) fn refused(code: u8, out: &mut [u8]) -> usize
    ensures { (result ≡ length (refused_text code)) × (out.new ≡ placed out.old 0 (refused_text code)) }
{
    let number = u32::from(code);
    let size = 9 + text::size(number);
    if out.len() < size {
        return size;
    }
    let at = text::bytes(out, 0, b"refused ");
    text::closed(out, at, number, 10)
}
