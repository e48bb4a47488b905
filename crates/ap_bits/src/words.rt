ghost use Rattle.std.specs.Prelude.{◌≡◌, ◌+◌, ◌-◌, ◌*◌, ◌/◌, ◌%◌, ◌^◌, ◌<◌, ◌≤◌, ◌==◌, nat_lt, not, if◌then◌else◌, int_lt};
ghost use Rattle.ap_bits.specs.Operations.{ones_among, zeros_above, signed, bits_of, floor_of, high_bits, rotated, sign_extended};

/// 2^w - 1: the value of `w` bits that are all 1. `w` is from 1 to 64.
pub fn mask(w: u32) -> u64
    requires low { 1 ≤ w }
    requires high { w ≤ 64 }
    ensures { result ≡ 2 ^ w - 1 }
{
    u64::MAX >> (64 - w)
}

/// The value `v` of `from` bits as a value of `to` bits that stands for the same two's complement number: each bit above is
/// as the high bit of `v`. `from` is at least 1 and at most `to`, which is at most 64.
pub fn sext(v: u64, from: u32, to: u32) -> u64
    requires low { 1 ≤ from }
    requires order { from ≤ to }
    requires high { to ≤ 64 }
    requires fits { v < 2 ^ from }
    ensures value { result ≡ sign_extended v from to }
    ensures fits { result < 2 ^ to }
    ensures number { signed to result ≡ signed from v }
{
    if is_negative(from, v) {
        v + (mask(to) - mask(from))
    } else {
        v
    }
}

/// Whether the high bit is 1.
fn is_negative(w: u32, a: u64) -> bool
    requires low { 1 ≤ w }
    requires high { w ≤ 64 }
    ensures { (nat_lt a (2 ^ (w - 1))) ≡ not result }
{
    a >> (w - 1) != 0
}

/// 1 where it holds, else 0.
pub(crate) fn flag(holds: bool) -> u64
    ensures value { result ≡ (if holds then 1 else 0) }
    ensures bit { result ≤ 1 }
{
    u64::from(holds)
}

/// How many bits are 1.
pub(crate) fn ones(w: u32, a: u64) -> u64
    requires high { w ≤ 64 }
    requires a { a < 2 ^ w }
    ensures { result ≡ ones_among w a }
{
    u64::from(a.count_ones())
}

/// How many bits 0 stand above the highest 1.
pub(crate) fn leading(w: u32, a: u64) -> u64
    requires high { w ≤ 64 }
    requires a { a < 2 ^ w }
    ensures { result ≡ zeros_above w a }
{
    u64::from(a.leading_zeros() - (64 - w))
}

/// The sum.
pub(crate) fn sum(w: u32, a: u64, b: u64) -> u64
    requires low { 1 ≤ w }
    requires high { w ≤ 64 }
    ensures { result ≡ (a + b) % 2 ^ w }
{
    a.wrapping_add(b) & mask(w)
}

/// The difference.
pub(crate) fn difference(w: u32, a: u64, b: u64) -> u64
    requires low { 1 ≤ w }
    requires high { w ≤ 64 }
    requires b { b < 2 ^ w }
    ensures { result ≡ (a + 2 ^ w - b) % 2 ^ w }
{
    a.wrapping_sub(b) & mask(w)
}

/// Whether the first is less as a two's complement number.
pub(crate) fn is_less(w: u32, a: u64, b: u64) -> bool
    requires low { 1 ≤ w }
    requires high { w ≤ 64 }
    requires a { a < 2 ^ w }
    requires b { b < 2 ^ w }
    ensures { result ≡ int_lt (signed w a) (signed w b) }
{
    let negative = is_negative(w, a);
    if negative == is_negative(w, b) {
        a < b
    } else {
        negative
    }
}

/// The value shifted left.
pub(crate) fn left(w: u32, a: u64, b: u64) -> u64
    requires low { 1 ≤ w }
    requires high { w ≤ 64 }
    ensures { result ≡ (if nat_lt b w then a * 2 ^ b % 2 ^ w else 0) }
{
    if b < u64::from(w) {
        (a << b) & mask(w)
    } else {
        0
    }
}

/// The value shifted right, with zeros above.
pub(crate) fn right(w: u32, a: u64, b: u64) -> u64
    requires high { w ≤ 64 }
    ensures { result ≡ (if nat_lt b w then a / 2 ^ b else 0) }
{
    if b < u64::from(w) { a >> b } else { 0 }
}

/// The value shifted right, with its high bit above: of a negative number the zeros are shifted as ones of the others are.
pub(crate) fn right_signed(w: u32, a: u64, b: u64) -> u64
    requires low { 1 ≤ w }
    requires high { w ≤ 64 }
    requires a { a < 2 ^ w }
    ensures { result ≡ (if nat_lt b w then bits_of w
        (floor_of (signed w a) (2 ^ b)) else high_bits w a) }
{
    if is_negative(w, a) {
        mask(w) - right(w, mask(w) - a, b)
    } else {
        right(w, a, b)
    }
}

/// The value rotated left, by `b` modulo `w` places.
pub(crate) fn rotated(w: u32, a: u64, b: u64) -> u64
    requires low { 1 ≤ w }
    requires high { w ≤ 64 }
    requires a { a < 2 ^ w }
    ensures { result ≡ rotated w a (b % w) }
{
    let places = (b % u64::from(w)) as u32;
    let wide = u128::from(a);
    (((wide << places) + (wide >> (w - places))) % (1 << w)) as u64
}

/// The low half of the product.
pub(crate) fn product_low(w: u32, a: u64, b: u64) -> u64
    requires low { 1 ≤ w }
    requires high { w ≤ 64 }
    ensures { result ≡ a * b % 2 ^ w }
{
    a.wrapping_mul(b) & mask(w)
}

/// The high half of the product.
pub(crate) fn product_high(w: u32, a: u64, b: u64) -> u64
    requires high { w ≤ 64 }
    requires a { a < 2 ^ w }
    requires b { b < 2 ^ w }
    ensures { result ≡ a * b / 2 ^ w }
{
    ((u128::from(a) * u128::from(b)) >> w) as u64
}

/// The quotient, all ones for the divisor 0.
pub(crate) fn quotient(w: u32, a: u64, b: u64) -> u64
    requires low { 1 ≤ w }
    requires high { w ≤ 64 }
    ensures { result ≡ (if b == 0 then 2 ^ w - 1 else a / b) }
{
    if b == 0 { mask(w) } else { a / b }
}

/// The remainder, the dividend for the divisor 0.
pub(crate) fn remainder(a: u64, b: u64) -> u64
    ensures { result ≡ (if b == 0 then a else a % b) }
{
    if b == 0 { a } else { a % b }
}
