// An element put into an array, and one taken out: the elements from there on move by one.
#![tactic(auto)]

ghost use Rattle.std.specs.Prelude.{◌≡◌, ◌++◌, ◌∷◌, ◌+◌, ◌-◌, take, drop};

// The last element is lost.
pub fn put<T: Copy, const N: usize>(a: [T; N], at: usize, v: T) -> [T; N]
    ensures { result ≡ take N (take at a ++ v ∷ drop at a) }
{
    let mut b = a;
    if at < N {
        b.copy_within(at..N - 1, at + 1);
        b[at] = v;
    }
    b
}

// The last element stays as it was.
pub fn cut<T: Copy, const N: usize>(a: [T; N], at: usize) -> [T; N]
    ensures { take (N - 1) result ≡ take (N - 1) (take at a ++ drop (at + 1) a) }
{
    let mut b = a;
    if at < N {
        b.copy_within(at + 1.., at);
    }
    b
}
