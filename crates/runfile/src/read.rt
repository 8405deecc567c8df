// The sections of a file, each read from front to back.
ghost use Rattle.std.specs.Prelude.{◌≡◌, ◌+◌, ◌*◌, ◌≤◌, ◌<◌, drop, IfOk};
ghost use Rattle.tables.specs.Table.{at};
ghost use Rattle.runfile.specs.File.{mask_sound, fields_sound, read_count, read_counter, read_cell, read_step, read_items, read_file};
ghost use Rattle.runfile.specs.Head.{read_as, by_front, Padded, firsts, padded, cell_in};
ghost use Rattle.runfile.specs.Parts.{step_in};

use crate::{Fault, Head};
use kinds::Step;

// A mask is not zero and names only nodes of the run.
#[tactic(auto, using(crate::proofs::Reading::mask_in))]
pub fn mask_sound(nodes: u8, mask: u8) -> bool
    requires { nodes ≤ 8 }
    ensures { result ≡ mask_sound nodes mask }
{
    mask != 0 && u32::from(mask) >> nodes == 0
}

// A field that the kind doesn't use is zero.
pub fn fields_sound(x: Step) -> bool
    ensures { result ≡ fields_sound x }
{
    let u = kinds::uses(x.kind);
    (u.slot | (x.slot == 0))
        & (u.node | (x.node == 0))
        & (u.cell | (x.cell == 0))
        & (u.value | (x.value == 0))
}

// The count of k bytes at a place, which is to lie from low to high.
fn count_at(file: &[u8], at: usize, k: usize, low: u32, high: u32) -> Result<u32, Fault>
    requires { (0 < k) × (k ≤ 4) }
    ensures read { read_count k low high (drop at file.now) ≡ read_as result (λ x. x) (drop (at + k) file.now) }
    ensures most { IfOk result (λ x. x ≤ high) }
{
    let count = little::read(file, at, k).ok_or(Fault::Short)?;
    if count < low || high < count {
        return Err(Fault::Count);
    }
    Ok(count)
}

// The counters of n nodes, which stand past the count of nodes.
fn counters_in(file: &[u8], n: usize) -> Result<[u32; 8], Fault>
    requires { n ≤ 8 }
    ensures read { read_items read_counter n (drop 1 file.now)
        ≡ read_as result (λ l. firsts n (λ i. at l i 0)) (drop (4 * n) (drop 1 file.now)) }
    ensures padded { IfOk result (λ l. padded 8 (firsts n (λ i. at l i 0)) ≡ l) }
{
    let mut counters = [0u32; 8];
    for i in 0..n {
        counters[i] = little::read(file, 1 + 4 * i, 4).ok_or(Fault::Short)?;
    }
    Ok(counters)
}

// The masks and the values of the n cells at a place. A mask is judged by the number of nodes.
fn cells_in(file: &[u8], start: usize, nodes: u8, n: usize) -> Result<([u8; 32], [u32; 32]), Fault>
    requires { (start ≤ 64) × (nodes ≤ 8) × (n ≤ 32) }
    ensures read { read_items (read_cell nodes) n (drop start file.now)
        ≡ read_as result (λ t. firsts n (cell_in t.0 t.1)) (drop (5 * n) (drop start file.now)) }
    ensures masks { IfOk result (λ t. padded 32 (firsts n (λ i. at t.0 i 0)) ≡ t.0) }
    ensures values { IfOk result (λ t. padded 32 (firsts n (λ i. at t.1 i 0)) ≡ t.1) }
{
    let mut masks = [0u8; 32];
    let mut values = [0u32; 32];
    for i in 0..n {
        let at = start + 5 * i;
        let value = little::read(file, at + 1, 4).ok_or(Fault::Short)?;
        let mask = file[at];
        if !mask_sound(nodes, mask) {
            return Err(Fault::Mask);
        }
        masks[i] = mask;
        values[i] = value;
    }
    Ok((masks, values))
}

// The first fault among n steps.
pub(crate) fn check_steps(part: &[u8], n: usize) -> Result<(), Fault>
    requires { n ≤ 4096 }
    ensures { read_items read_step n part.now ≡ read_as result (λ u. firsts n (step_in part.now)) (drop (8 * n) part.now) }
{
    for i in 0..n {
        let x = crate::step_at(part, i).ok_or(Fault::Short)?;
        if !fields_sound(x) {
            return Err(Fault::Field);
        }
    }
    Ok(())
}

// All that stands before the steps, and their count.
pub(crate) fn front_of(file: &[u8]) -> Result<Head, Fault>
    ensures read { read_file file.now ≡ by_front file.now result }
    ensures padded { IfOk result Padded }
{
    let nodes = count_at(file, 0, 1, 1, 8)?;
    let n = nodes as usize;
    let counters = counters_in(file, n)?;
    let cells = count_at(file, 1 + 4 * n, 1, 1, 32)?;
    let c = cells as usize;
    let (masks, values) = cells_in(file, 2 + 4 * n, nodes as u8, c)?;
    let steps = count_at(file, 2 + 4 * n + 5 * c, 2, 0, 4096)?;
    Ok(Head {
        nodes: nodes as u8,
        cells: cells as u8,
        steps: steps as u16,
        counters,
        masks,
        values,
    })
}
