// A fresh run: the state before the first step.
#![tactic(auto)]

ghost use Rattle.std.specs.Prelude.{◌≡◌, replicate};
ghost use Rattle.group.specs.State.{state_of};
ghost use Rattle.fresh.specs.Fresh.{fresh_lens, fresh_versions, fresh as is_fresh};

use chain::Chains;
use counters::Counters;
use group::{Group, NO_SLOT, Tables};

// Chain i is that of cell i / 8 at node i % 8. Only a holder has one.
#[tactic(auto, using(tables::proofs::Loop::each_none, tables::proofs::Loop::each_next, crate::proofs::Laws::byte_of), unfolding(tables::specs::Table::put))]
fn fill_lens(g: &Group, lens: &mut [u8; 256])
    ensures { lens.new ≡ fresh_lens g.now.masks }
{
    for (i, len) in lens.iter_mut().enumerate() {
        *len = u8::from(g.holds((i % 8) as u8, (i / 8) as u8));
    }
}

// The first version of every chain, with the number 0, in a table of zeros. Where a node does not hold the cell, the chain's length says that
// there is none.
fn fill_versions(values: &[u32; 32], versions: &mut [u64; 2048])
    requires { versions.old ≡ replicate 2048 0 }
    ensures { versions.new ≡ fresh_versions values.now }
{
    for i in 0..256 {
        versions[i * 8] = tables::packed(0, values[i / 8]);
    }
}

// The state before the first step, from what the file brings: any counts, any bytes, and any tables, which are filled anew where they lie.
pub fn fresh(
    nodes: u8,
    cells: u8,
    counters: &[u32; 8],
    masks: &[u8; 32],
    values: &[u32; 32],
    tables: &mut Tables,
) -> Group
    ensures { state_of result tables.new ≡ is_fresh nodes cells counters.now masks.now values.now }
{
    let g = Group {
        nodes,
        cells,
        counters: counters.map(Counters::zeroed),
        masks: *masks,
        slots: [NO_SLOT; 32],
    };
    // in one piece: where the caller has just made the tables, they are then cleared once and not twice
    *tables = Tables {
        flight: [0; 256],
        chains: Chains {
            lens: [0; 256],
            versions: [0; 2048],
        },
        writes: [0; 1024],
        reads: [0; 1024],
    };
    fill_lens(&g, &mut tables.chains.lens);
    fill_versions(values, &mut tables.chains.versions);
    g
}
