// Whole numbers for the crates above: arithmetic that cannot overflow, and the laws that their proofs import from proofs/.
#![tactic(auto)]

ghost use Rattle.std.specs.Prelude.{◌≡◌, ◌*◌, ◌^◌, ◌≤◌, ◌+ℤ◌, ◌*ℤ◌, unsigned_abs};
ghost use Rattle.integers.specs.Roots.{root_up};
ghost use Rattle.integers.specs.Rounding.{div_up};

// The root of `n`, rounded up.
pub fn ceil_root(n: u64) -> u64
    ensures value { result ≡ root_up n }
    ensures bound { result ≤ 2 ^ 32 }
{
    let f = n.isqrt();
    if f * f < n { f + 1 } else { f }
}

// A product, in a width that holds it.
pub fn product(a: i64, b: i32) -> i128
    ensures value { result ≡ a *ℤ b }
    ensures bound { unsigned_abs result ≤ 2 ^ 94 }
{
    a as i128 * b as i128
}

// The sum of three products.
pub fn dot(a: i64, b: i64, c: i64, x: i32, y: i32, z: i32) -> i128
    ensures value { result ≡ a *ℤ x +ℤ b *ℤ y +ℤ c *ℤ z }
    ensures bound { unsigned_abs result ≤ 3 * 2 ^ 94 }
{
    product(a, x) + product(b, y) + product(c, z)
}

// A number in units of so many, rounded up; in units of none, 0.
#[inline(always)]
pub fn div_up(z: i128, unit: u32) -> i128
    ensures { result ≡ div_up z unit }
{
    if unit == 0 {
        return 0;
    }
    // By / and %, as -z does not fit where z is the least number.
    let quotient = z / unit as i128;
    let rest = z % unit as i128;
    if rest > 0 { quotient + 1 } else { quotient }
}

// The square of a number, in a width that holds it.
pub fn square(a: u32) -> u64
    ensures { result ≡ a * a }
{
    a as u64 * a as u64
}
