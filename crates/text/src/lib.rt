// Decimal numbers and lines, written byte for byte into bytes that the caller lends. Every function takes any place and any bytes, and
// returns the place past what it wrote: it writes the whole or, where that does not fit, nothing, and returns the same place.
// By hand, since `write!` would leave there the first part of what does not fit, and does not say where it ends.
#![tactic(auto)]

ghost use Rattle.std.specs.Prelude.{◌≡◌, [], ◌∷◌, ◌++◌, ◌+◌, ◌≤◌, leb, length};
ghost use Rattle.text.specs.Text.{decimal as decimal_of, line_of, placed, after};

// The one test of what fits, with no sum that could wrap.
fn room(len: usize, at: usize, k: usize) -> bool
    ensures { result ≡ leb (at + k) len }
{
    at <= len && k <= len - at
}

// How many digits a number has.
#[tactic(auto, using(crate::proofs::Digits::decimal_log))]
pub fn size(x: u32) -> usize
    ensures { (result ≡ length (decimal_of x)) × (result ≤ 10) }
{
    x.max(1).ilog10() as usize + 1
}

// One byte.
pub fn byte(out: &mut [u8], at: usize, b: u8) -> usize
    ensures { (result ≡ after (length out.old) at (b ∷ [])) × (out.new ≡ placed out.old at (b ∷ [])) }
{
    bytes(out, at, &[b])
}

// The bytes of a word.
#[tactic(auto, using(crate::proofs::Coding::part_placed), unfolding(crate::specs::Text::placed, crate::specs::Text::after))]
pub fn bytes(out: &mut [u8], at: usize, s: &[u8]) -> usize
    ensures { (result ≡ after (length out.old) at s.now) × (out.new ≡ placed out.old at s.now) }
{
    if room(out.len(), at, s.len()) {
        let end = at + s.len();
        out[at..end].copy_from_slice(s);
        end
    } else {
        at
    }
}

// The digits of a number, filled in from the last one back.
#[tactic(auto, using(crate::proofs::Coding::first_all, crate::proofs::Coding::first_next))]
pub fn decimal(out: &mut [u8], at: usize, x: u32) -> usize
    ensures { (result ≡ after (length out.old) at (decimal_of x)) × (out.new ≡ placed out.old at (decimal_of x)) }
{
    let k = size(x);
    if room(out.len(), at, k) {
        let mut high = x;
        for i in (0..k).rev() {
            out[at + i] = b'0' + (high % 10) as u8;
            high /= 10;
        }
        at + k
    } else {
        at
    }
}

// A number with the byte that closes it.
pub fn closed(out: &mut [u8], at: usize, x: u32, b: u8) -> usize
    ensures { (result ≡ after (length out.old) at (decimal_of x ++ (b ∷ []))) × (out.new ≡ placed out.old at (decimal_of x ++ (b ∷ []))) }
{
    if room(out.len(), at, size(x) + 1) {
        let end = decimal(out, at, x);
        byte(out, end, b)
    } else {
        at
    }
}

// How many bytes a line of four numbers has.
pub fn line_size(a: u32, b: u32, c: u32, d: u32) -> usize
    ensures { (result ≡ length (line_of (a ∷ b ∷ c ∷ d ∷ []))) × (result ≤ 44) }
{
    size(a) + size(b) + size(c) + size(d) + 4
}

// A line of four numbers.
pub fn line(out: &mut [u8], at: usize, a: u32, b: u32, c: u32, d: u32) -> usize
    ensures { (result ≡ after (length out.old) at (line_of (a ∷ b ∷ c ∷ d ∷ []))) × (out.new ≡ placed out.old at (line_of (a ∷ b ∷ c ∷ d ∷ []))) }
{
    if room(out.len(), at, line_size(a, b, c, d)) {
        let second = closed(out, at, a, b' ');
        let third = closed(out, second, b, b' ');
        let fourth = closed(out, third, c, b' ');
        closed(out, fourth, d, b'\n')
    } else {
        at
    }
}
