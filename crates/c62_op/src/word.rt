//! Arithmetic on words.

ghost use Rattle.std.specs.Prelude.{ℤ, pos, min, ◌≡◌, ◌<◌, ◌≤◌, ◌*◌, ◌*ℤ◌, ◌%◌, ◌+◌, ◌-◌, ◌^◌, ◌/◌, unsigned_abs, int_lt, ◌+ℤ◌, ◌-ℤ◌, if◌then◌else◌};
ghost use Rattle.c62_op.specs.Word.{word, sg, sg_half, lo, hi, sum, difference, shifted_left, shifted_right, half_sums, half_differences, saturated, doubled, ones_from, complement, leftmost, redundant_signs, division_step};

/// A whole number modulo 2^32, as the word that a register or memory holds.
pub fn word_of(z: i64) -> u32
    ensures { result ≡ word z }
{
    z.rem_euclid(1 << 32) as u32
}

/// `z` modulo 2^32.
pub(crate) fn word_of_signed(z: i32) -> u32
    ensures { result ≡ word z }
{
    z.cast_unsigned()
}

/// The lower half.
pub(crate) fn low(v: u32) -> u16
    ensures { result ≡ lo v }
{
    (v & 0xffff) as u16
}

/// The upper half.
pub(crate) fn high(v: u32) -> u16
    ensures { result ≡ hi v }
{
    (v >> 16) as u16
}

/// The word of these halves.
pub(crate) fn joined(upper: u16, lower: u16) -> u32
    ensures { result ≡ upper * 2 ^ 16 + lower }
{
    u32::from(upper) << 16 | u32::from(lower)
}

/// The absolute value, and 2^31 - 1 of -2^31.
pub(crate) fn absolute(a: u32) -> u32
    ensures { result ≡ min (unsigned_abs (sg a)) (2 ^ 31 - 1) }
{
    a.cast_signed().unsigned_abs().min(0x7fff_ffff)
}

/// `a` shifted left by `count`.
#[tactic(auto, using(crate::proofs::WordLemmas::shl_gone))]
pub(crate) fn shift_left(a: u32, count: u32) -> u32
    ensures { result ≡ shifted_left a count }
{
    if count < 32 { a << count } else { 0 }
}

/// `a` shifted right by `count`, with its sign.
#[tactic(auto, using(crate::proofs::WordLemmas::shr_far))]
pub(crate) fn shift_right(a: u32, count: u32) -> u32
    ensures { result ≡ shifted_right a count }
{
    let signed = a.cast_signed();
    word_of_signed(if count < 32 {
        signed >> count
    } else {
        signed >> 31
    })
}

/// `a` shifted right by `count`.
#[tactic(auto, using(crate::proofs::WordLemmas::shr_gone))]
pub(crate) fn shift_right_unsigned(a: u32, count: u32) -> u32
    ensures { result ≡ a / 2 ^ count }
{
    if count < 32 { a >> count } else { 0 }
}

/// The sums of the halves, without carry between them.
pub(crate) fn add_halves(a: u32, b: u32) -> u32
    ensures { result ≡ half_sums a b }
{
    joined(high(a).wrapping_add(high(b)), low(a).wrapping_add(low(b)))
}

/// The differences of the halves, without borrow between them.
pub(crate) fn subtract_halves(a: u32, b: u32) -> u32
    ensures { result ≡ half_differences a b }
{
    joined(high(a).wrapping_sub(high(b)), low(a).wrapping_sub(low(b)))
}

/// The product of two halves as signed numbers.
fn signed_product(a: u16, b: u16) -> i32
    ensures { result ≡ sg_half a *ℤ sg_half b }
{
    i32::from(a.cast_signed()) * i32::from(b.cast_signed())
}

/// The product of two halves, both signed.
pub(crate) fn multiply(a: u16, b: u16) -> u32
    ensures { result ≡ word (sg_half a *ℤ sg_half b) }
{
    word_of_signed(signed_product(a, b))
}

/// The product of two halves, the second signed.
pub(crate) fn multiply_mixed(a: u16, b: u16) -> u32
    ensures { result ≡ word (pos a *ℤ sg_half b) }
{
    word_of_signed(i32::from(a) * i32::from(b.cast_signed()))
}

/// The product of two halves, the first signed.
pub(crate) fn multiply_mixed_first(a: u16, b: u16) -> u32
    ensures { result ≡ word (sg_half a *ℤ pos b) }
{
    word_of_signed(i32::from(a.cast_signed()) * i32::from(b))
}

/// The product of two halves.
pub(crate) fn multiply_unsigned(a: u16, b: u16) -> u32
    ensures { result ≡ a * b }
{
    u32::from(a) * u32::from(b)
}

/// A signed number as a word: the nearest one that a word can hold.
pub(crate) fn saturated(z: i64) -> u32
    ensures { result ≡ saturated z }
{
    if z > 0x7fff_ffff {
        0x7fff_ffff
    } else if z < -0x8000_0000 {
        0x8000_0000
    } else {
        word_of(z)
    }
}

/// The sum of two words as signed numbers, saturated.
pub(crate) fn add_saturated(a: u32, b: u32) -> u32
    ensures { result ≡ saturated (sg a +ℤ sg b) }
{
    saturated(i64::from(a.cast_signed()) + i64::from(b.cast_signed()))
}

/// Their difference, saturated.
pub(crate) fn subtract_saturated(a: u32, b: u32) -> u32
    ensures { result ≡ saturated (sg a -ℤ sg b) }
{
    saturated(i64::from(a.cast_signed()) - i64::from(b.cast_signed()))
}

/// A signed number times a whole number, saturated.
fn scaled(z: i32, factor: u32) -> u32
    ensures { result ≡ saturated (z *ℤ pos factor) }
{
    saturated(i64::from(z) * i64::from(factor))
}

/// A word as a signed number, shifted left by the low five bits of `count`, saturated.
#[tactic(auto, using(crate::proofs::WordLemmas::small_power))]
pub(crate) fn shift_left_saturated(a: u32, count: u32) -> u32
    ensures { result ≡ saturated (sg a *ℤ pos (2 ^ (count % 32))) }
{
    scaled(a.cast_signed(), shift_left(1, count % 32))
}

fn double_saturated(z: i32) -> u32
    ensures { result ≡ doubled z }
{
    scaled(z, 2)
}

/// Twice the product of two halves, both signed, saturated.
pub(crate) fn multiply_saturated(a: u16, b: u16) -> u32
    ensures { result ≡ doubled (sg_half a *ℤ sg_half b) }
{
    double_saturated(signed_product(a, b))
}

/// The word whose bits from `first` up to `last` are 1.
pub(crate) fn ones_from(first: u32, last: u32) -> u32
    ensures { result ≡ ones_from first last }
{
    if last < first {
        0
    } else {
        shift_left(2, last).wrapping_sub(shift_left(1, first))
    }
}

/// Every bit the other way round.
pub(crate) fn complement(v: u32) -> u32
    ensures { result ≡ complement v }
{
    0xffff_ffff - v
}

/// How many bits of `v` stand above its leftmost 1 where `bit` is odd, and else above its leftmost 0.
pub(crate) fn leftmost(bit: u32, v: u32) -> u32
    ensures { result ≡ leftmost bit v }
{
    let sought = if bit % 2 == 1 { v } else { complement(v) };
    sought.leading_zeros()
}

/// How many bits below the sign repeat it.
pub(crate) fn redundant_signs(v: u32) -> u32
    ensures { result ≡ redundant_signs v }
{
    let below = if v < 0x8000_0000 { v } else { complement(v) };
    below.leading_zeros().saturating_sub(1)
}

/// A step of a division.
pub(crate) fn division_step(a: u32, b: u32) -> u32
    ensures { result ≡ division_step a b }
{
    if b <= a {
        (a - b).wrapping_mul(2).wrapping_add(1)
    } else {
        a.wrapping_mul(2)
    }
}
