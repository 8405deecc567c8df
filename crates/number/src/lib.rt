// The proposal of rule C. Every node proposes numbers that leave its own when divided by 8, so no number is ever proposed by two
// nodes; and each above its counter, so none is proposed twice by one.
#![tactic(auto)]

ghost use Rattle.std.specs.Prelude.{◌≡◌};
ghost use Rattle.number.specs.Proposal.{proposal, up_to_top};

// Takes any node byte and any counter: a byte of 8 and above is no node's number, and has no proposal.
#[tactic(auto, unfolding(crate::specs::Proposal::proposal, crate::specs::Proposal::next))]
pub fn propose(node: u8, counter: u32) -> Option<u32>
    ensures { result ≡ proposal node counter }
{
    if 8 <= node {
        return None;
    }
    // of the eight numbers around the counter, the one that leaves the node's; it may lie above what 32 bits hold
    let c = u64::from(counter);
    let here = c / 8 * 8 + u64::from(node);
    within(if c < here { here } else { here + 8 })
}

// A number, unless it is above the largest that there is.
#[tactic(auto, unfolding(crate::specs::Proposal::up_to_top))]
fn within(k: u64) -> Option<u32>
    ensures { result ≡ up_to_top k }
{
    u32::try_from(k).ok()
}
