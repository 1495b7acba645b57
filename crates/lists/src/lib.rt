// Lent lists: read and written with the bounds test inside, and cleared.
#![tactic(auto)]

ghost use Rattle.std.specs.Prelude.{◌≡◌, ◌≤◌, Bool, length, get_or, set};
ghost use Rattle.std.specs.Float.{nan};
ghost use Rattle.lists.specs.Lists.{at_front, zeros, any};

// The member at i, `none` past the end.
pub fn at<T: Copy>(s: &[T], i: usize, none: T) -> T
    ensures { result ≡ get_or s.now i none }
{
    if i < s.len() { s[i] } else { none }
}

// The number at i, NaN past the end.
pub fn number_at(v: &[f64], i: usize) -> f64
    ensures { result ≡ get_or v.now i nan }
{
    at(v, i, 0.0 / 0.0)
}

// Stores x at i; nothing past the end.
pub fn put<T: Copy>(s: &mut [T], i: usize, x: T)
    ensures { s.new ≡ set s.old i x }
{
    if i < s.len() {
        s[i] = x;
    }
}

// x in each of the first n places.
pub fn clear<T: Copy>(s: &mut [T], n: usize, x: T)
    requires { n ≤ length s.old }
    ensures { s.new ≡ at_front (zeros x n) s.old }
{
    for place in s[..n].iter_mut() {
        *place = x;
    }
}

// Whether some member passes a test. All members are looked at, so that no branch is taken.
pub fn any<T: Copy, F: Fn(T) -> bool>(s: &[T], passes: F) -> bool
    requires { F.IsAlwaysCallable passes }
    ensures { (p : T → Bool) → ((x : T) (b : Bool) → F.post passes x b → b ≡ p x) → result ≡ any p s.now }
{
    let mut found = false;
    for x in s {
        found = found | passes(*x);
    }
    found
}
