// The words that every definition above this crate is written in (specs/), their laws (proofs/), and what of them code has too:
// a table read and written at any place, and two numbers in one word.
#![tactic(auto)]

ghost use Rattle.std.specs.Prelude.{◌≡◌, ◌/◌, ◌%◌};
ghost use Rattle.tables.specs.Table.{at as at_of, put as put_of};
ghost use Rattle.tables.specs.Pair.{pair, word};

// What stands at place i of the table; d where it has no such place.
#[tactic(auto, unfolding(crate::specs::Table::at))]
pub fn at<T: Copy>(table: &[T], i: usize, d: T) -> T
    ensures { result ≡ at_of table.now i d }
{
    match table.get(i) {
        Some(x) => *x,
        None => d,
    }
}

// Puts v at place i of the table; one with no such place stays as it is.
#[tactic(auto, unfolding(crate::specs::Table::put))]
pub fn put<T: Copy>(table: &mut [T], i: usize, v: T)
    ensures { table.new ≡ put_of table.old i v }
{
    if i < table.len() {
        table[i] = v;
    }
}

// Two numbers in one word.
pub fn packed(high: u32, low: u32) -> u64
    ensures { result ≡ pair word high low }
{
    u64::from(high) * 4294967296 + u64::from(low)
}

// The upper number of a word.
pub fn high(x: u64) -> u32
    ensures { result ≡ x / word }
{
    (x / 4294967296) as u32
}

// The lower number of a word.
pub fn low(x: u64) -> u32
    ensures { result ≡ x % word }
{
    (x % 4294967296) as u32
}
