// The tree as a list of node records.
#![tactic(auto)]

ghost use Rattle.std.specs.Prelude.{◌≡◌, ◌≤◌, ◌<◌, ◌^◌, length};
ghost use Rattle.lists.specs.Lists.{run, at_front};
ghost use Rattle.accept.specs.Refusals.{all_passed};
ghost use Rattle.tree.specs.Tree.{index_of};
ghost use Rattle.nodes.specs.Layout.{nodes_of};
ghost use Rattle.index.specs.Answers.{boxes_tested};
ghost use Rattle.records.specs.Records.{node_in, nodes_tested, recorded, records_outcome};

use accept::Refusal;
use accept::refusals::refuse_when;
use index::{TreeSize, building, refusals};
use nodes::{IndexView, Node};

// Node i of an index buffer.
fn node_in(view: &IndexView, i: usize) -> Node
    requires { i < 2 ^ 32 }
    ensures { result ≡ node_in view.now.corners.now view.now.links.now i }
{
    let b = view.box_at(i);
    Node {
        lo: b.min,
        hi: b.max,
        first: view.first_at(i),
        count: view.count_at(i),
    }
}

// Puts the first n nodes of an index buffer to the front of a lent list.
fn put_nodes(view: &IndexView, n: usize, nodes: &mut [Node])
    requires { (n ≤ 511) × (n ≤ length nodes.old) }
    ensures { nodes.new ≡ at_front (run (node_in view.now.corners.now view.now.links.now) 0 n) nodes.old }
{
    for i in 0..n {
        nodes[i] = node_in(view, i);
    }
}

// Puts the index of a list of boxes that passes the tests, as records, and its items to the front of two lent lists:
// the number of nodes.
fn record(boxes: &[f64], nodes: &mut [Node], items: &mut [u32]) -> usize
    requires { (boxes_tested boxes.now ≡ all_passed) × (511 ≤ length nodes.old) × (1024 ≤ length items.old) }
    ensures { (result ≡ length (nodes_of (index_of boxes.now)))
        × (record { nodes = nodes.new; items = items.new } ≡ recorded (index_of boxes.now) nodes.old items.old) }
{
    let mut corners = [0.0; 2044];
    let mut links = [0; 1022];
    let count = building::grow(boxes, &mut corners, &mut links, items);
    let view = IndexView {
        corners: &corners,
        links: &links,
        items,
    };
    put_nodes(&view, count, nodes);
    count
}

// The tests of the call.
fn nodes_tested(boxes: &[f64], nodes: usize, items: usize) -> Result<(), Refusal>
    ensures { result ≡ nodes_tested boxes.now nodes items }
{
    refusals::boxes_tested(boxes)?;
    refuse_when(nodes < 511, Refusal::ShortBuffer)?;
    refuse_when(items < 1024, Refusal::ShortBuffer)
}

// The index of any list of boxes as records, in lent lists.
pub fn records(boxes: &[f64], nodes: &mut [Node], items: &mut [u32]) -> Result<TreeSize, Refusal>
    ensures { record { answer = result; lent = record { nodes = nodes.new; items = items.new } }
        ≡ records_outcome boxes.now nodes.old items.old }
{
    nodes_tested(boxes, nodes.len(), items.len())?;
    let count = record(boxes, nodes, items) as u32;
    Ok(TreeSize {
        nodes: count,
        items: (boxes.len() / 4) as u32,
    })
}
