// The library for firmware as C calls it: each function hands its bytes to the one of the same name in cilumbara, and promises the same, a fault told as its number. A
// slice is a pointer and then a length. The header is include/cilumbara.h.
#![tactic(auto)]

ghost use Rattle.std.specs.Prelude.{◌≡◌, length};
ghost use Rattle.text.specs.Text.{placed};
ghost use Rattle.runfile.specs.File.{read_file};
ghost use Rattle.replay.specs.Replay.{text_of};
ghost use Rattle.cilumbara.specs.Library.{check_of, rewrite_of, told};

use runfile::Fault;

// C is told a number: 0, or that of the fault.
fn code(answer: Result<(), Fault>) -> u8
    ensures { result ≡ told answer }
{
    match answer {
        Ok(()) => 0,
        Err(fault) => fault.code(),
    }
}

// The text that the run program prints for a file, at the front of the output, or nothing where it doesn't fit. Returns the text's length.
#[unsafe(no_mangle)]
pub extern "C" fn cilumbara_replay(file: &[u8], out: &mut [u8]) -> usize
    ensures { (result ≡ length (text_of (read_file file.now)))
        × (out.new ≡ placed out.old 0 (text_of (read_file file.now))) }
{
    cilumbara::cilumbara_replay(file, out)
}

// The code of a file's first fault by place; 0 for a sound file.
#[unsafe(no_mangle)]
pub extern "C" fn cilumbara_check(file: &[u8]) -> u8
    ensures { result ≡ told (check_of (read_file file.now)) }
{
    code(cilumbara::cilumbara_check(file))
}

// Reads a file and writes its run anew: 0 and the same bytes at the front of the output. A fault's code, or 37 where the output is too
// short, writes nothing.
#[unsafe(no_mangle)]
pub extern "C" fn cilumbara_rewrite(file: &[u8], out: &mut [u8]) -> u8
    ensures { (result ≡ told (rewrite_of (read_file file.now) out.old).answer)
        × (out.new ≡ (rewrite_of (read_file file.now) out.old).out) }
{
    code(cilumbara::cilumbara_rewrite(file, out))
}
