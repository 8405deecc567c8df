// Little-endian numbers in bytes that the caller lends: the scanner that reads them, and the store that writes them. The work is in
// functions over plain slices and numbers. Every function takes any input.
#![tactic(auto)]

ghost use Rattle.std.specs.Prelude.{◌≡◌, length};
ghost use Rattle.little.specs.Little.{fits as fits_of, number_at, place_after, stored, Tail};

// It stands over the caller's bytes with its place.
#[derive(Drop)]
pub struct Scanner<'a> {
    pub src: &'a [u8],
    pub at: usize,
}

// The one test of what is wholly there, for whoever reads, moves on or stores.
#[tactic(auto, unfolding(crate::specs::Little::fits))]
fn fits(len: usize, at: usize, k: usize) -> bool
    ensures { result ≡ fits_of len at k }
{
    k <= 4 && k <= len && at <= len - k
}

// The number of the k bytes at a place, from the top byte down.
pub fn number_at(s: &[u8], at: usize, k: usize) -> Option<u32>
    ensures { result ≡ number_at s.now at k }
{
    if !fits(s.len(), at, k) {
        return None;
    }
    let mut x = 0;
    for i in (0..k).rev() {
        x = u32::from(s[at + i]) + 256 * x;
    }
    Some(x)
}

// The place past k bytes, or the same place where they are not wholly there.
#[tactic(auto, using(crate::proofs::Laws::fits_true), unfolding(crate::specs::Little::place_after))]
pub fn place_after(len: usize, at: usize, k: usize) -> usize
    ensures { result ≡ place_after len at k }
{
    if fits(len, at, k) { at + k } else { at }
}

// The bytes from a place on: that very part of the caller's.
pub fn from(s: &[u8], at: usize) -> &[u8]
    ensures { Tail s.entry at result }
{
    &s[at.min(s.len())..]
}

// Stores the k least bytes of x at a place, and says whether they fit there. Where they do not, nothing is stored.
pub fn store(out: &mut [u8], at: usize, k: usize, x: u32) -> bool
    ensures { (result ≡ fits_of (length out.old) at k) × (out.new ≡ stored out.old at k x) }
{
    if !fits(out.len(), at, k) {
        return false;
    }
    let mut high = x;
    for i in 0..k {
        out[at + i] = (high % 256) as u8;
        high /= 256;
    }
    true
}

impl<'a> Scanner<'a> {
    pub fn new(src: &'a [u8], at: usize) -> Scanner<'a>
        ensures { (result.src ≡ src.entry) × (result.at ≡ at) }
    {
        Scanner { src, at }
    }

    // The number of the next k bytes, and the scanner stands past them; or they are not wholly there, and it stays.
    pub fn take(&mut self, k: usize) -> Option<u32>
        ensures { (result ≡ number_at self.old.src.now self.old.at k)
            × (self.new.src ≡ self.old.src)
            × (self.new.at ≡ place_after (length self.old.src.now) self.old.at k) }
    {
        let n = number_at(self.src, self.at, k);
        self.at = place_after(self.src.len(), self.at, k);
        n
    }

    // What is left.
    pub fn rest(self) -> &'a [u8]
        ensures { Tail self.entry.src self.entry.at result }
    {
        from(self.src, self.at)
    }
}

// ---- above the scanner: plain slices and numbers, so that the proof of every caller stays plain
pub fn read(file: &[u8], at: usize, k: usize) -> Option<u32>
    ensures { result ≡ number_at file.now at k }
{
    Scanner::new(file, at).take(k)
}

pub fn tail(file: &[u8], at: usize) -> &[u8]
    ensures { Tail file.entry at result }
{
    Scanner::new(file, at).rest()
}
