// One of two values.
#![tactic(auto)]

ghost use Rattle.std.specs.Prelude.{◌≡◌, cond};

// x where c holds, else y. Both are at hand, so the compiler leaves no branch: in a loop over pixels c changes from one to the next.
pub fn pick<T: Copy>(c: bool, x: T, y: T) -> T
    ensures { result ≡ cond c x y }
{
    if c { x } else { y }
}
