//! The nodes of the trees of steps, counted up to one beyond the limit.
ghost use Rattle.std.specs.Prelude.{◌≡◌, ◌+◌, ◌≤◌, ◌∷◌, [], min};
ghost use Rattle.wt_refute.specs.Refutation.{node_count};
ghost use Rattle.wt_refute.specs.View.{refutation};
ghost use Rattle.wt_chain.specs.Limits.{nodes_with};
ghost use Rattle.wt_chain.specs.Limits.{nodes_with_lost, nodes_through};

use wt_refute::{Refuted, Tree, count_nodes};
use wt_search::MAX_NODES;
use wt_step::{Lost, RawLink};

fn with_tree(nodes: usize, tree: &Tree) -> usize
    requires { nodes ≤ MAX_NODES + 1 }
    ensures { result ≡ min (nodes + node_count (refutation tree.now)) (MAX_NODES + 1) }
{
    (nodes + count_nodes(tree).min(MAX_NODES + 1)).min(MAX_NODES + 1)
}

fn with_refuted(nodes: usize, refuted: &[Refuted]) -> usize
    requires { nodes ≤ MAX_NODES + 1 }
    ensures { result ≡ min (nodes_with nodes refuted.now) (MAX_NODES + 1) }
{
    let mut sum = nodes;
    for entry in refuted {
        sum = with_tree(sum, &entry.tree);
    }
    sum
}

fn with_lost(nodes: usize, lost: &[Lost]) -> usize
    requires { nodes ≤ MAX_NODES + 1 }
    ensures { result ≡ min (nodes_with_lost nodes lost.now) (MAX_NODES + 1) }
{
    let mut sum = nodes;
    for entry in lost {
        sum = with_tree(sum, &entry.tree);
    }
    sum
}

fn with_link(nodes: usize, link: &RawLink) -> usize
    requires { nodes ≤ MAX_NODES + 1 }
    ensures { result ≡ min (nodes_through nodes (link.now ∷ [])) (MAX_NODES + 1) }
{
    match link {
        RawLink::Marker(step) => with_refuted(nodes, step.refuted.as_slice()),
        RawLink::Restrict(step) => with_lost(nodes, step.lost.as_slice()),
    }
}

/// The nodes of all trees of these steps; where they are more than the limit, one more than that.
pub fn nodes_of(links: &[RawLink]) -> usize
    ensures { result ≡ min (nodes_through 0 links.now) (MAX_NODES + 1) }
{
    let mut sum = 0;
    for link in links {
        sum = with_link(sum, link);
    }
    sum
}
