// The tests of a set and of a query of it, in document 01's order. Tests 5 to 9 take one pass: the least
// number of a test that some outline does not pass is the first test that turns the set away.
ghost use Rattle.std.specs.Prelude.{◌≡◌, cond, ◌-◌, ◌*◌, ◌≤◌, min, eqb, ltb, length, take, drop};
ghost use Rattle.lists.specs.Lists.{any};
ghost use Rattle.index.specs.Buffer.{buffer};
ghost use Rattle.set.specs.Set.{start_of, outlines_of};
ghost use Rattle.set.specs.Tests.{lists_tested, set_tested, set_query_tested};
ghost use Rattle.set.specs.OnePass.{first_failed, least_failed, test_at, rank_of};

use crate::outlines::{Set, outline_from};
use accept::Refusal;
use accept::refusals::{point_in_field, refuse_when, sign_tested, test_of, values_tested};
use boundary::Point;
use index::refusals::short_index;

// Whether the counts add up to n; no sum is made that could be too large.
fn adds_up(counts: &[u32], n: usize) -> bool
    ensures { result ≡ eqb (start_of counts.now (length counts.now)) n }
{
    let mut left = n;
    for count in counts {
        let c = *count as usize;
        if left < c {
            return false;
        }
        left = left - c;
    }
    left == 0
}

// The number of what the tests say of an outline, 10 where it passes: what an outline fails first is told by the least
// number (`least_failed`), and a refusal has neither an order nor a value above all.
fn rank_of(t: Result<(), Refusal>) -> u32
    ensures { result ≡ rank_of t }
{
    match t {
        Ok(()) => 10,
        Err(r) => u32::from(r),
    }
}

// The same of the outline whose numbers stand from `at` to `end`.
fn rank_in(v: &[f64], at: usize, end: usize) -> u32
    requires { (at ≤ end) × (end ≤ length v.now) }
    ensures { result ≡ first_failed (take (end - at) (drop at v.now)) }
{
    rank_of(test_of(sign_tested(values_tested(outline_from(v, at, end)))))
}

// The least of all outlines' numbers.
fn least_failed(set: &Set) -> u32
    requires { 2 * start_of set.now.counts.now (length set.now.counts.now) ≤ length set.now.vertices.now }
    ensures { result ≡ least_failed (outlines_of set.now.vertices.now set.now.counts.now) }
{
    let mut least: u32 = 10;
    let mut at = 0;
    for count in set.counts {
        let end = at + 2 * (*count as usize);
        let rank = rank_in(set.vertices, at, end);
        least = least.min(rank);
        at = end;
    }
    least
}

fn test_at(n: u32) -> Result<(), Refusal>
    ensures { result ≡ test_at n }
{
    match n {
        5 => Err(Refusal::NotFinite),
        6 => Err(Refusal::OutsideField),
        7 => Err(Refusal::EqualNeighbours),
        8 => Err(Refusal::ZeroArea),
        9 => Err(Refusal::NegativeArea),
        _ => Ok(()),
    }
}

// Tests 1 to 4.
fn lists_tested(set: &Set) -> Result<(), Refusal>
    ensures { result ≡ lists_tested set.now.vertices.now set.now.counts.now }
{
    let n = set.vertices.len() / 2;
    refuse_when(set.vertices.len() % 2 == 1, Refusal::OddCount)?;
    refuse_when(!adds_up(set.counts, n), Refusal::BadCounts)?;
    let few = lists::any(set.counts, |count| count < 3);
    refuse_when(few, Refusal::TooFew)?;
    let many = lists::any(set.counts, |count| 4096 < count);
    let large = (1024 < set.counts.len()) | (65536 < n);
    refuse_when(many | large, Refusal::TooMany)
}

// The tests of a set, 1 to 9.
pub fn set_tested(set: &Set) -> Result<(), Refusal>
    ensures { result ≡ set_tested set.now.vertices.now set.now.counts.now }
{
    lists_tested(set)?;
    test_at(least_failed(set))
}

// The tests of a query, 13 the last.
pub fn query_tested(
    set: &Set,
    p: Point,
    corners: &[f64],
    links: &[u32],
    items: &[u32],
) -> Result<(), Refusal>
    ensures { result ≡ set_query_tested set.now.vertices.now set.now.counts.now p (buffer corners.now links.now items.now) }
{
    set_tested(set)?;
    refuse_when(!point_in_field(p), Refusal::BadPoint)?;
    let short = short_index(corners.len(), links.len(), items.len());
    refuse_when(short, Refusal::ShortBuffer)
}
