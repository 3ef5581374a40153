//! Arithmetic on whole numbers: division rounded to the nearest, and square roots rounded down.
ghost use Rattle.std.specs.Prelude.{◌≡◌, ◌<◌, ◌≤◌, ◌^◌, ◌↔◌, IsTrue};
ghost use Rattle.std.specs.Prelude.{pos, ◌+ℤ◌, ◌-ℤ◌, ◌*ℤ◌, ◌<ℤ◌, ◌≤ℤ◌, unsigned_abs};
ghost use Rattle.std.specs.Int.{int_div_euclid};
ghost use Rattle.rig_fixed.specs.Fixed.{unit};
ghost use Rattle.rig_fixed.specs.Number.{rdiv, isqrt, IsRoot};
ghost use Rattle.rig_fixed.specs.Rotation.{unit_square};
ghost use Rattle.rig_fixed.specs.Bounds.{wide_highest, wide_lowest, narrow_highest, narrow_lowest};
ghost use Rattle.rig_fixed.specs.Bounds.{dividend_bound, length_bound, turn_bound};

/// `a / b`, rounded to the nearest whole number, and a half upward, also below 0.
pub fn rdiv(a: i128, b: i128) -> i128
    requires positive { pos 0 <ℤ b }
    requires divisor { b ≤ℤ wide_highest }
    requires lowest { wide_lowest ≤ℤ a }
    requires highest { a ≤ℤ wide_highest }
    ensures { result ≡ rdiv a b }
{
    if -NARROW < a && a < NARROW && b < NARROW {
        rdiv_narrow(a as i64, b as i64) as i128
    } else {
        rdiv_wide(a, b)
    }
}

/// The magnitude below which two numbers are divided in 64 bits.
const NARROW: i128 = 2_000_000_000_000_000_000;

/// [`rdiv`], where a guess is given that often is right: one that is takes no division.
pub(crate) fn rdiv_by_guess(a: i128, b: i128, guess: i64) -> i128
    requires positive { pos 0 <ℤ b }
    requires divisor { b ≤ℤ pos length_bound }
    requires dividend { unsigned_abs a ≤ dividend_bound }
    ensures { result ≡ rdiv a b }
{
    if is_quotient(a, b, guess) {
        guess as i128
    } else {
        rdiv(a, b)
    }
}

/// Whether a number is `a / b`, rounded to the nearest, and a half upward.
fn is_quotient(a: i128, b: i128, quotient: i64) -> bool
    requires positive { pos 0 <ℤ b }
    requires divisor { b ≤ℤ pos length_bound }
    requires dividend { unsigned_abs a ≤ dividend_bound }
    ensures { IsTrue result → quotient ≡ rdiv a b }
{
    let rest = remainder(a, b, quotient);
    0 <= rest && rest < 2 * b
}

/// What is left of `2a + b` when so many times `2b` are taken from it.
fn remainder(a: i128, b: i128, times: i64) -> i128
    requires positive { pos 0 <ℤ b }
    requires divisor { b ≤ℤ pos length_bound }
    requires dividend { unsigned_abs a ≤ dividend_bound }
    ensures { result ≡ pos 2 *ℤ a +ℤ b -ℤ pos 2 *ℤ b *ℤ times }
{
    2 * a + b - 2 * b * (times as i128)
}

/// [`rdiv`] in 64 bits.
pub(crate) fn rdiv_narrow(a: i64, b: i64) -> i64
    requires positive { pos 0 <ℤ b }
    requires divisor { b ≤ℤ narrow_highest }
    requires lowest { narrow_lowest ≤ℤ a }
    requires highest { a ≤ℤ narrow_highest }
    ensures { result ≡ rdiv a b }
{
    (2 * a + b).div_euclid(2 * b)
}

/// [`rdiv`] in 128 bits.
fn rdiv_wide(a: i128, b: i128) -> i128
    requires positive { pos 0 <ℤ b }
    requires divisor { b ≤ℤ wide_highest }
    requires lowest { wide_lowest ≤ℤ a }
    requires highest { a ≤ℤ wide_highest }
    ensures { result ≡ rdiv a b }
{
    (2 * a + b).div_euclid(2 * b)
}

/// A product of two numbers in millionths, in millionths: over 10^6 = 2^6 * 5^6, rounded to the nearest, and a half
/// upward.
pub(crate) fn over_unit(product: i128) -> i64
    requires { unsigned_abs product ≤ 1000000000000000000000000 }
    ensures { result ≡ rdiv product unit }
{
    floor_over_15625((product + 500_000) >> 6)
}

/// `n / 15,625`, rounded down.
fn floor_over_15625(n: i128) -> i64
    requires { unsigned_abs n ≤ 20000000000000000000000 }
    ensures { result ≡ int_div_euclid n (pos 15625) }
{
    let raised = n + (15_625 << 48);
    if 0 <= raised && raised <= u64::MAX as i128 {
        (raised as u64 / 15_625) as i64 - (1 << 48)
    } else {
        n.div_euclid(15_625) as i64
    }
}

/// Twice `half` over the square of one whole unit, 10^12, rounded to the nearest, and a half upward. Half of 10^12 is
/// 2^11 * 5^12.
pub(crate) fn twice_over_unit_square(half: i128) -> i64
    requires { unsigned_abs half ≤ dividend_bound }
    ensures value { result ≡ rdiv (pos 2 *ℤ half) unit_square }
    ensures within { unsigned_abs result ≤ turn_bound }
{
    floor_over_244140625((half + 250_000_000_000) >> 11)
}

/// `n / 244,140,625`, rounded down.
fn floor_over_244140625(n: i128) -> i64
    requires { unsigned_abs n ≤ 10000000000000000000000 }
    ensures { result ≡ int_div_euclid n (pos 244140625) }
{
    let raised = n + (244_140_625 << 34);
    if 0 <= raised && raised <= u64::MAX as i128 {
        (raised as u64 / 244_140_625) as i64 - (1 << 34)
    } else {
        n.div_euclid(244_140_625) as i64
    }
}

/// The square root of `n`, rounded down: the greatest whole number whose square is at most `n`.
pub fn isqrt(n: u128) -> u128
    ensures { result ≡ isqrt n }
{
    if n == 0 {
        return 0;
    }
    let guess = root_guess(n);
    if is_root(n, guess) {
        guess as u128
    } else if guess < u64::MAX && is_root(n, guess + 1) {
        guess as u128 + 1
    } else if guess > 0 && is_root(n, guess - 1) {
        guess as u128 - 1
    } else {
        root_by_digits(n)
    }
}

/// Whether `root` is the square root of `n`, rounded down.
fn is_root(n: u128, root: u64) -> bool
    ensures { IsTrue result ↔ IsRoot n root }
{
    let root = root as u128;
    let square = root * root;
    square <= n && n - square <= 2 * root
}

/// The square root of `n`, rounded down, a binary digit at a time: that of `n / 4` doubled, or one more.
fn root_by_digits(n: u128) -> u128
    ensures { IsRoot n result }
{
    if n == 0 {
        return 0;
    }
    let half = root_by_digits(n / 4);
    let next = 2 * half + 1;
    if next * next <= n { next } else { next - 1 }
}

/// The square root of `n`, or a number near to it, without a division: the reciprocal of the root of the leading
/// digits, by a parabola and three steps of Newton's method, and with it two corrections of the root.
fn root_guess(n: u128) -> u64
    requires { 0 < n }
{
    let pairs = n.leading_zeros() / 2;
    let square = (n << (2 * pairs)) >> 2;
    let digits = (square >> 94) as u64;
    let reciprocal = nearer_reciprocal(digits, first_reciprocal(digits));
    let reciprocal = nearer_reciprocal(digits, nearer_reciprocal(digits, reciprocal));
    let root = nearer_root(square, (digits * reciprocal).min(HIGHEST_ROOT), reciprocal);
    (2 * nearer_root(square, root, reciprocal) + 1) >> pairs
}

/// The highest root of a number below 2^126.
const HIGHEST_ROOT: u64 = (1 << 63) - 1;

/// The highest number of 32 binary digits.
const HIGHEST_DIGITS: u64 = (1 << 32) - 1;

/// About 2^31 over the root of `digits / 2^32`, for `digits` from 2^30 to 2^32: a parabola.
fn first_reciprocal(digits: u64) -> u64
    requires { digits < 2 ^ 32 }
    ensures { result < 2 ^ 32 }
{
    let slope = 3_527_624_808 - ((digits * 1_759_398_850) >> 32);
    let fall = (digits * slope) >> 31;
    (5_735_575_324 - fall.min(5_735_575_324)).min(HIGHEST_DIGITS)
}

/// A step of Newton's method from a number near to 2^31 over the root of `digits / 2^32`.
fn nearer_reciprocal(digits: u64, near: u64) -> u64
    requires digits { digits < 2 ^ 32 }
    requires near { near < 2 ^ 32 }
    ensures { result < 2 ^ 32 }
{
    let part = (((near * near) >> 32) * digits) >> 32;
    let factor = (3 << 30) - part.min(3 << 30);
    ((near * factor) >> 31).min(HIGHEST_DIGITS)
}

/// A number near to the root of `square`, corrected by what its own square is away, where `reciprocal` is about 2^94
/// over the root.
fn nearer_root(square: u128, near: u64, reciprocal: u64) -> u64
    requires square { square < 2 ^ 126 }
    requires near { near < 2 ^ 63 }
    requires reciprocal { reciprocal < 2 ^ 32 }
    ensures { result < 2 ^ 63 }
{
    let away = square as i128 - (near as u128 * near as u128) as i128;
    let step = ((away >> 64) * reciprocal as i128) >> 31;
    (near as i128 + step).clamp(0, HIGHEST_ROOT as i128) as u64
}

#[cfg(test)]
mod tests {
    use super::*;

    #[test]
    fn quotients_are_rounded_to_the_nearest_and_halves_upward(rt: HostRuntime) {
        let large: i128 = 10_000_000_000_000_000_000_000_000_000_000_000_000;
        let third: i128 = 3_333_333_333_333_333_333_333_333_333_333_333_333;
        for (a, b, quotient) in [
            (1, 2, 1),
            (-1, 2, 0),
            (-3, 2, -1),
            (5, 3, 2),
            (large, 3, third),
            (-large, 3, -third),
            (large, large, 1),
        ] {
            assert_eq!(rt; rdiv(a, b), quotient, "{a} / {b}");
        }
    }

    #[test]
    fn roots_are_rounded_down(rt: HostRuntime) {
        for (n, root) in [(0, 0), (15, 3), (16, 4), (u128::MAX, u64::MAX as u128)] {
            assert_eq!(rt; isqrt(n), root, "of {n}");
            assert_eq!(rt; root_by_digits(n), root, "of {n}, by digits");
        }
    }
}
