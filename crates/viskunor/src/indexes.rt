// The box tree: building it, and listing what meets a cell. A call gives its refusal's number, or 0, and
// an answer in the fields that it is lent; a refused call puts zeros there and leaves the lent lists as
// they were.
ghost use Rattle.std.specs.Prelude.{◌≡◌};
ghost use Rattle.boundary.specs.Boxes.{cell_of};
ghost use Rattle.index.specs.Buffer.{buffer};
ghost use Rattle.index.specs.Answers.{build_call};
ghost use Rattle.records.specs.Records.{nodes_call};
ghost use Rattle.meeting.specs.Answers.{meeting_call};

use accept::answers::fields;
use boundary::{Bounds, Point};
use nodes::Node;

pub fn vk_index_build(
    boxes: &[f64],
    corners: &mut [f64],
    links: &mut [u32],
    items: &mut [u32],
    node_count: &mut u32,
    item_count: &mut u32,
) -> u32
    ensures { record {
      answer = record { number = result; value = record { nodes = node_count.new; items = item_count.new } };
      lent = buffer corners.new links.new items.new;
    }
        ≡ build_call boxes.now (buffer corners.old links.old items.old) }
{
    let (number, size) = fields(index::new(boxes, corners, links, items));
    *node_count = size.nodes;
    *item_count = size.items;
    number
}

// The same as node records.
pub fn vk_index_nodes(
    boxes: &[f64],
    nodes: &mut [Node],
    items: &mut [u32],
    node_count: &mut u32,
    item_count: &mut u32,
) -> u32
    ensures { record {
      answer = record {
        number = result;
        value = record { nodes = node_count.new; items = item_count.new };
      };
      lent = record {
        nodes = nodes.new;
        items = items.new;
      };
    }
        ≡ nodes_call boxes.now nodes.old items.old }
{
    let (number, value) = fields(records::records(boxes, nodes, items));
    *node_count = value.nodes;
    *item_count = value.items;
    number
}

pub fn vk_index_meeting(
    boxes: &[f64],
    min_x: f64,
    min_y: f64,
    max_x: f64,
    max_y: f64,
    corners: &mut [f64],
    links: &mut [u32],
    items: &mut [u32],
    list: &mut [u32],
    count: &mut u32,
) -> u32
    ensures { record {
      answer = record { number = result; value = count.new };
      lent = record { buffer = buffer corners.new links.new items.new; list = list.new };
    }
        ≡ meeting_call boxes.now (cell_of min_x min_y max_x max_y)
        (buffer corners.old links.old items.old) list.old }
{
    let cell = Bounds {
        min: Point { x: min_x, y: min_y },
        max: Point { x: max_x, y: max_y },
    };
    let answer = meeting::meeting(boxes, cell, corners, links, items, list);
    let (number, value) = fields(answer);
    *count = value;
    number
}
