// The outlines of a set: where each begins, its numbers, and its box.
ghost use Rattle.std.specs.Prelude.{◌≡◌, ◌-◌, ◌*◌, ◌≤◌, ◌<◌, ◌^◌, length, take, drop};
ghost use Rattle.std.proofs.lemmas.List.Edits.{sets};
ghost use Rattle.lists.specs.Lists.{run};
ghost use Rattle.boundary.specs.Outline.{vertices};
ghost use Rattle.geometry.specs.Polygon.{bounds_of};
ghost use Rattle.boxes.specs.BoxLists.{box_numbers};
ghost use Rattle.set.specs.Set.{start_of, outlines_of, outline_in, set_boxes};
ghost use Rattle.set.specs.Answers.{Starts};

use geometry::polygon;

// A set of outlines as it is lent: the vertices' numbers of all of them, and how many vertices each has.
#[derive(Clone, Copy)]
pub struct Set<'a> {
    pub vertices: &'a [f64],
    pub counts: &'a [u32],
}

// How many vertices stand before each outline.
pub fn put_starts(counts: &[u32], starts: &mut [u32])
    requires { start_of counts.now (length counts.now) ≤ 65536 }
    ensures { starts.new ≡ sets starts.old 0 (run (start_of counts.now) 0 (length counts.now)) }
{
    let mut sum = 0;
    for (k, count) in counts.iter().enumerate() {
        lists::put(starts, k, sum);
        sum = sum + *count;
    }
}

// The outline whose numbers stand from `at` to `end`: the one place where an outline is cut out of a set's list.
pub fn outline_from(v: &[f64], at: usize, end: usize) -> &[f64]
    requires { (at ≤ end) × (end ≤ length v.now) }
    ensures { result.now ≡ take (end - at) (drop at v.now) }
{
    &v[at..end]
}

// Stores the box of the outline whose numbers stand from `at` to `end` as box k.
fn put_box(v: &[f64], at: usize, end: usize, boxes: &mut [f64], k: usize)
    requires { (at ≤ end) × (end ≤ length v.now) × (k < 2 ^ 32) }
    ensures { boxes.new ≡ sets boxes.old (4 * k) (box_numbers (bounds_of (vertices (take (end - at) (drop at v.now))))) }
{
    boxes::put_box(boxes, k, polygon::box_of(outline_from(v, at, end)));
}

impl<'a> Set<'a> {
    // Outline k; past the last there is none.
    pub fn outline_at(&self, starts: &[u32], k: usize) -> &'a [f64]
        requires { (2 * start_of self.now.counts.now (length self.now.counts.now) ≤ length self.now.vertices.now) × Starts self.now.counts.now starts.now }
        ensures { result.now ≡ outline_in (outlines_of self.now.vertices.now self.now.counts.now) k }
    {
        if k < self.counts.len() {
            let at = 2 * (lists::at(starts, k, 0) as usize);
            let end = at + 2 * (lists::at(self.counts, k, 0) as usize);
            return outline_from(self.vertices, at, end);
        }
        outline_from(self.vertices, 0, 0)
    }

    // The boxes of all outlines.
    pub fn put_boxes(&self, boxes: &mut [f64])
        requires { (length self.now.counts.now ≤ 1024) × (2 * start_of self.now.counts.now (length self.now.counts.now) ≤ length self.now.vertices.now) }
        ensures { boxes.new ≡ sets boxes.old 0 (set_boxes (outlines_of self.now.vertices.now self.now.counts.now)) }
    {
        let mut at = 0;
        for (k, count) in self.counts.iter().enumerate() {
            let end = at + 2 * (*count as usize);
            put_box(self.vertices, at, end, boxes, k);
            at = end;
        }
    }
}
