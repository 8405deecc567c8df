// "Chains ascend from number 0."
ghost use Rattle.std.specs.Prelude.{◌≡◌};
ghost use Rattle.tables.specs.Loop.{every};
ghost use Rattle.whole.specs.Whole.{ascends_at, chain_sound, chain_at, cell_sound, chains_sound};

use chain::Chains;
use group::Group;

// From each version to the next, up to the last.
fn ascends(chains: &Chains, c: u8, n: u8, last: u8) -> bool
    ensures { result ≡ every last (ascends_at chains.now.versions c n) }
{
    (0..last).all(|i| chains.version(c, n, i).number < chains.version(c, n, i + 1).number)
}

#[tactic(auto, unfolding(whole::specs::Whole::chain_sound))]
fn chain_sound(chains: &Chains, c: u8, n: u8) -> bool
    ensures { result ≡ chain_sound chains.now c n }
{
    let k = chains.len(c, n);
    1 <= k && k <= 8 && chains.version(c, n, 0).number == 0 && ascends(chains, c, n, k - 1)
}

// The chain of a node that does not hold the cell is not judged.
fn chain_at(g: &Group, chains: &Chains, c: u8, n: u8) -> bool
    ensures { result ≡ chain_at g.now.masks chains.now c n }
{
    !g.holds(n, c) || chain_sound(chains, c, n)
}

fn cell_sound(g: &Group, chains: &Chains, c: u8) -> bool
    ensures { result ≡ cell_sound g.now.nodes g.now.masks chains.now c }
{
    (0..g.nodes).all(|n| chain_at(g, chains, c, n))
}

pub(crate) fn chains_sound(g: &Group, chains: &Chains) -> bool
    ensures { result ≡ chains_sound g.now.nodes g.now.cells g.now.masks chains.now }
{
    (0..g.cells).all(|c| cell_sound(g, chains, c))
}
