// The box tree: the calls vk_index_build and vk_index_meeting, in buffers of their stated sizes. A list of
// boxes comes as its length and its numbers; an answer is the refusal's number, the answer fields, and
// what the call has written.
use crate::arguments::Cell;
use sample::answers::List;
use std::io;
use std::io::Write;

// Buffers for an index. They are made once, since a struct of arrays is made by copying.
#[derive(Clone, Copy)]
pub struct Index {
    pub corners: [f64; 2044],
    pub links: [u32; 1022],
    pub items: [u32; 1024],
}

impl Index {
    pub fn new() -> Self {
        Index {
            corners: [1.0; 2044],
            links: [1; 1022],
            items: [1; 1024],
        }
    }

    // Ones everywhere, as each call gets them.
    pub fn fill(&mut self) {
        self.corners.fill(1.0);
        self.links.fill(1);
        self.items.fill(1);
    }
}

// Of an accepted call the answer has the nodes and items.
pub fn build<W: Write>(to: &mut W, v: &[f64], index: &mut Index) -> io::Result<()> {
    index.fill();
    let mut nodes = 9;
    let mut items = 9;
    let number = viskunor::indexes::vk_index_build(
        v,
        &mut index.corners,
        &mut index.links,
        &mut index.items,
        &mut nodes,
        &mut items,
    );
    let corners = List::first(&index.corners, 4 * nodes as usize);
    let links = List::first(&index.links, 2 * nodes as usize);
    let list = List::first(&index.items, items as usize);
    writeln!(to, "{number:x} {nodes:x} {items:x}{corners}{links}{list}")
}

pub fn meeting<W: Write>(to: &mut W, v: &[f64], cell: Cell, index: &mut Index) -> io::Result<()> {
    index.fill();
    let mut list = [1; 1024];
    let mut count = 9;
    let number = viskunor::indexes::vk_index_meeting(
        v,
        cell.low.x,
        cell.low.y,
        cell.high.x,
        cell.high.y,
        &mut index.corners,
        &mut index.links,
        &mut index.items,
        &mut list,
        &mut count,
    );
    let list = List::first(&list, count as usize);
    writeln!(to, "{number:x} {count:x}{list}")
}
