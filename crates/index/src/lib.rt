// The box tree (index.rs): a tree over boxes, built in lent buffers. The lists of an index buffer that are written to
// stand one by one (see `nodes::build`).
#![tactic(auto)]

pub mod building;
pub mod refusals;

ghost use Rattle.std.specs.Prelude.{◌≡◌};
ghost use Rattle.index.specs.Buffer.{buffer};
ghost use Rattle.index.specs.Answers.{no_tree, build_outcome};

use accept::Refusal;
use accept::answers::Zeros;

// How many nodes and items there are.
#[derive(Clone, Copy)]
pub struct TreeSize {
    pub nodes: u32,
    pub items: u32,
}

impl Zeros for TreeSize {
    ghost zeros = { no_tree };

    fn zeros() -> TreeSize {
        TreeSize { nodes: 0, items: 0 }
    }
}

// The index of a list of boxes, in lent buffers.
pub fn new(
    boxes: &[f64],
    corners: &mut [f64],
    links: &mut [u32],
    items: &mut [u32],
) -> Result<TreeSize, Refusal>
    ensures { record { answer = result; lent = buffer corners.new links.new items.new }
        ≡ build_outcome boxes.now (buffer corners.old links.old items.old) }
{
    refusals::build_tested(boxes, corners.len(), links.len(), items.len())?;
    let nodes = building::grow_or_leaf(boxes, corners, links, items);
    Ok(TreeSize {
        nodes: nodes as u32,
        items: (boxes.len() / 4) as u32,
    })
}
