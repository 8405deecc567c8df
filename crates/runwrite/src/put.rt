// The run that is written is judged first, and then stored section by section.
ghost use Rattle.std.specs.Prelude.{◌≡◌, ◌+◌, ◌*◌, ◌≤◌, ◌&&◌, ◌∷◌, ◌++◌, not, leb, length};
ghost use Rattle.std.specs.Result.{result_err};
ghost use Rattle.std.proofs.lemmas.List.Edits.{sets};
ghost use Rattle.tables.specs.Table.{at};
ghost use Rattle.tables.specs.Loop.{every};
ghost use Rattle.little.specs.Little.{digits};
ghost use Rattle.runfile.specs.File.{mask_sound, fields_sound, some_bad, fault_of, joined, cell_bytes, step_bytes, bytes_of};
ghost use Rattle.runfile.specs.Parts.{steps_start};
ghost use Rattle.runfile.specs.Head.{firsts, cell_in};
ghost use Rattle.runwrite.specs.Writing.{file_of};

use kinds::Step;
use runfile::{Fault, Head};

fn masks_sound(nodes: u8, masks: &[u8; 32], cells: u8) -> bool
    requires { (nodes ≤ 8) × (cells ≤ 32) }
    ensures { result ≡ every cells (λ i. mask_sound nodes (at masks.now i 0)) }
{
    for i in 0..usize::from(cells) {
        if !runfile::mask_sound(nodes, masks[i]) {
            return false;
        }
    }
    true
}

fn steps_sound(steps: &[Step]) -> bool
    ensures { result ≡ not (some_bad fields_sound steps.now) }
{
    for x in steps {
        if !runfile::fields_sound(*x) {
            return false;
        }
    }
    true
}

fn counts_sound(nodes: u8, cells: u8) -> bool
    ensures { result ≡ (leb 1 nodes && leb nodes 8 && leb 1 cells && leb cells 32) }
{
    (1 <= nodes) & (nodes <= 8) & (1 <= cells) & (cells <= 32)
}

// The first fault by place that a run has.
#[tactic(auto, using(crate::proofs::Judging::fault_shape))]
pub(crate) fn check(head: &Head, steps: &[Step]) -> Result<(), Fault>
    ensures { result_err result ≡ fault_of (file_of head.now steps.now) }
{
    if !counts_sound(head.nodes, head.cells) {
        return Err(Fault::Count);
    }
    if !masks_sound(head.nodes, &head.masks, head.cells) {
        return Err(Fault::Mask);
    }
    if 4096 < steps.len() {
        return Err(Fault::Count);
    }
    if !steps_sound(steps) {
        return Err(Fault::Field);
    }
    Ok(())
}

fn put_counters(counters: &[u32; 8], n: usize, out: &mut [u8])
    requires { (n ≤ 8) × (1 + 4 * n ≤ length out.old) }
    ensures { out.new ≡ sets out.old 1 (joined (digits 4) (firsts n (λ i. at counters.now i 0))) }
{
    for i in 0..n {
        little::store(out, 1 + 4 * i, 4, counters[i]);
    }
}

fn put_cells(masks: &[u8; 32], values: &[u32; 32], n: usize, start: usize, out: &mut [u8])
    requires { (n ≤ 32) × (start + 5 * n ≤ length out.old) }
    ensures { out.new ≡ sets out.old start (joined cell_bytes (firsts n (cell_in masks.now values.now))) }
{
    for i in 0..n {
        let at = start + 5 * i;
        out[at] = masks[i];
        little::store(out, at + 1, 4, values[i]);
    }
}

fn put_step(x: Step, at: usize, out: &mut [u8])
    requires { at + 8 ≤ length out.old }
    ensures { out.new ≡ sets out.old at (step_bytes x) }
{
    let word = crate::pack(x);
    little::store(out, at, 4, tables::low(word));
    little::store(out, at + 4, 4, tables::high(word));
}

fn put_steps(steps: &[Step], start: usize, out: &mut [u8])
    requires { start + 8 * length steps.now ≤ length out.old }
    ensures { out.new ≡ sets out.old start (joined step_bytes steps.now) }
{
    for i in 0..steps.len() {
        put_step(steps[i], start + 8 * i, out);
    }
}

// ---- the sections, each after its count

fn put_nodes(nodes: u8, counters: &[u32; 8], out: &mut [u8])
    requires { (nodes ≤ 8) × (1 + 4 * nodes ≤ length out.old) }
    ensures { out.new ≡ sets out.old 0 (nodes ∷ joined (digits 4) (firsts nodes (λ i. at counters.now i 0))) }
{
    out[0] = nodes;
    put_counters(counters, usize::from(nodes), out);
}

fn put_table(cells: u8, masks: &[u8; 32], values: &[u32; 32], start: usize, out: &mut [u8])
    requires { (cells ≤ 32) × (start + 1 + 5 * cells ≤ length out.old) }
    ensures { out.new ≡ sets out.old start (cells ∷ joined cell_bytes (firsts cells (cell_in masks.now values.now))) }
{
    out[start] = cells;
    put_cells(masks, values, usize::from(cells), start + 1, out);
}

fn put_tail(steps: &[Step], start: usize, out: &mut [u8])
    requires { (length steps.now ≤ 4096) × (start + 2 + 8 * length steps.now ≤ length out.old) }
    ensures { out.new ≡ sets out.old start (digits 2 (length steps.now) ++ joined step_bytes steps.now) }
{
    little::store(out, start, 2, steps.len() as u32);
    put_steps(steps, start + 2, out);
}

// How many bytes the file has.
pub(crate) fn size(head: &Head, steps: &[Step]) -> usize
    requires { length steps.now ≤ 4096 }
    ensures { result ≡ steps_start head.now.nodes head.now.cells + 8 * length steps.now }
{
    4 + 4 * usize::from(head.nodes) + 5 * usize::from(head.cells) + 8 * steps.len()
}

// Stores the file's bytes from the front of the output on.
pub(crate) fn fill(head: &Head, steps: &[Step], out: &mut [u8])
    requires { (head.now.nodes ≤ 8) × (head.now.cells ≤ 32) × (length steps.now ≤ 4096)
        × (steps_start head.now.nodes head.now.cells + 8 * length steps.now ≤ length out.old) }
    ensures { out.new ≡ sets out.old 0 (bytes_of (file_of head.now steps.now)) }
{
    let n = usize::from(head.nodes);
    let c = usize::from(head.cells);
    put_nodes(head.nodes, &head.counters, out);
    put_table(head.cells, &head.masks, &head.values, 1 + 4 * n, out);
    put_tail(steps, 2 + 4 * n + 5 * c, out);
}
