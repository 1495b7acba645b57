// The tests of a box list and of the buffers of its index, in document 01's order.
ghost use Rattle.std.specs.Prelude.{◌≡◌, not, ◌≤◌};
ghost use Rattle.lists.specs.Lists.{any};
ghost use Rattle.boxes.specs.BoxLists.{box_count, boxes_of};
ghost use Rattle.boundary.specs.Boxes.{box_fits};
ghost use Rattle.accept.specs.declared.Refusal.TheVariants.{ShortBuffer};
ghost use Rattle.accept.specs.Refusals.{◌refusing◌when◌};
ghost use Rattle.index.specs.Answers.{boxes_tested};
ghost use Rattle.index.specs.Buffer.{short_sizes};

use accept::Refusal;
use accept::refusals::{box_fits, refuse_when};

// Whether a box of the list is not one of the field, or has a minimum above its maximum. By place: a closure for
// `lists::any` would owe that the place is one of the list.
fn any_unfit(boxes: &[f64]) -> bool
    requires { box_count boxes.now ≤ 1024 }
    ensures { result ≡ any (λ b. not (box_fits b)) (boxes_of boxes.now) }
{
    let mut found = false;
    for i in 0..boxes.len() / 4 {
        found = found | !box_fits(boxes::box_at(boxes, i));
    }
    found
}

// Tests 4 and 11 of a box list.
pub fn boxes_tested(boxes: &[f64]) -> Result<(), Refusal>
    ensures { result ≡ boxes_tested boxes.now }
{
    refuse_when(4096 < boxes.len(), Refusal::TooMany)?;
    refuse_when(boxes.len() % 4 != 0, Refusal::BadBox)?;
    refuse_when(any_unfit(boxes), Refusal::BadBox)
}

// Whether an index buffer is too short.
pub fn short_index(corners: usize, links: usize, items: usize) -> bool
    ensures { result ≡ short_sizes corners links items }
{
    (corners < 2044) | ((links < 1022) | (items < 1024))
}

// The tests of building, in lists of so many corner numbers, link numbers and items.
pub fn build_tested(
    boxes: &[f64],
    corners: usize,
    links: usize,
    items: usize,
) -> Result<(), Refusal>
    ensures { result ≡ (boxes_tested boxes.now refusing ShortBuffer when short_sizes corners links items) }
{
    boxes_tested(boxes)?;
    refuse_when(short_index(corners, links, items), Refusal::ShortBuffer)
}
