// A value by a test. A caller that goes through these has no branch of its own left to prove.
ghost use Rattle.std.specs.Prelude.{◌≡◌, ◌≤◌, ◌&&◌, ◌||◌, if◌then◌else◌};
ghost use Rattle.std.specs.Bool.{xor, beq};

pub fn pick<T: Copy>(test: bool, yes: T, other: T) -> T
    ensures { result ≡ (if test then yes else other) }
{
    if test { yes } else { other }
}

// The weight where the test holds, else 0. The bound is for sums of weights.
pub fn weigh(test: bool, weight: u16) -> u16
    ensures value { result ≡ (if test then weight else 0) }
    ensures upper_bound { result ≤ weight }
{
    pick(test, weight, 0)
}

pub fn both(a: bool, b: bool) -> bool
    ensures { result ≡ (a && b) }
{
    a && b
}

pub fn either(a: bool, b: bool) -> bool
    ensures { result ≡ (a || b) }
{
    a || b
}

pub fn alike(a: bool, b: bool) -> bool
    ensures { result ≡ beq a b }
{
    a == b
}

pub fn unlike(a: bool, b: bool) -> bool
    ensures { result ≡ xor a b }
{
    a != b
}
