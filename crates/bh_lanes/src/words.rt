//! The functions of FIPS 180-4, section 4.1.2, on a word of each of the eight messages.

ghost use Rattle.std.specs.Prelude.{◌≡◌, ℕ, ◌/◌, ◌^◌, ◌<◌, slice_index, bit_and, bit_xor};
ghost use Rattle.std.specs.Int.{w32, rotate_right, bit_not};
ghost use Rattle.sha2.specs.Sha256 as spec;

use std::simd::u32x8;

#[inline(always)]
pub(crate) fn add(a: u32x8, b: u32x8) -> u32x8
    ensures { (j : ℕ) → j < 8 → slice_index result j ≡ spec.add32 (slice_index a j) (slice_index b j) }
{
    a + b
}

#[inline(always)]
pub(crate) fn add_to_each(a: u32x8, k: u32) -> u32x8
    ensures { (j : ℕ) → j < 8 → slice_index result j ≡ spec.add32 (slice_index a j) k }
{
    a + u32x8::splat(k)
}

#[inline(always)]
fn xor(a: u32x8, b: u32x8) -> u32x8
    ensures { (j : ℕ) → j < 8 → slice_index result j ≡ bit_xor (slice_index a j) (slice_index b j) }
{
    a ^ b
}

#[inline(always)]
fn and(a: u32x8, b: u32x8) -> u32x8
    ensures { (j : ℕ) → j < 8 → slice_index result j ≡ bit_and (slice_index a j) (slice_index b j) }
{
    a & b
}

#[inline(always)]
fn not(a: u32x8) -> u32x8
    ensures { (j : ℕ) → j < 8 → slice_index result j ≡ bit_not w32 (slice_index a j) }
{
    !a
}

#[inline(always)]
fn shift(x: u32x8, k: u32) -> u32x8
    requires { k < 32 }
    ensures { (j : ℕ) → j < 8 → slice_index result j ≡ slice_index x j / 2 ^ k }
{
    x >> u32x8::splat(k)
}

#[inline(always)]
fn rotate(x: u32x8, k: u32) -> u32x8
    requires { (0 < k) × (k < 32) }
    ensures { (j : ℕ) → j < 8 → slice_index result j ≡ rotate_right w32 (slice_index x j) k }
{
    (x >> u32x8::splat(k)) | (x << u32x8::splat(32 - k))
}

#[inline(always)]
pub(crate) fn big_sigma0(x: u32x8) -> u32x8
    ensures { (j : ℕ) → j < 8 → slice_index result j ≡ spec.big_sigma0 (slice_index x j) }
{
    let a = rotate(x, 2);
    let b = rotate(x, 13);
    let c = rotate(x, 22);
    let ab = xor(a, b);
    xor(ab, c)
}

#[inline(always)]
pub(crate) fn big_sigma1(x: u32x8) -> u32x8
    ensures { (j : ℕ) → j < 8 → slice_index result j ≡ spec.big_sigma1 (slice_index x j) }
{
    let a = rotate(x, 6);
    let b = rotate(x, 11);
    let c = rotate(x, 25);
    let ab = xor(a, b);
    xor(ab, c)
}

#[inline(always)]
pub(crate) fn small_sigma0(x: u32x8) -> u32x8
    ensures { (j : ℕ) → j < 8 → slice_index result j ≡ spec.small_sigma0 (slice_index x j) }
{
    let a = rotate(x, 7);
    let b = rotate(x, 18);
    let c = shift(x, 3);
    let ab = xor(a, b);
    xor(ab, c)
}

#[inline(always)]
pub(crate) fn small_sigma1(x: u32x8) -> u32x8
    ensures { (j : ℕ) → j < 8 → slice_index result j ≡ spec.small_sigma1 (slice_index x j) }
{
    let a = rotate(x, 17);
    let b = rotate(x, 19);
    let c = shift(x, 10);
    let ab = xor(a, b);
    xor(ab, c)
}

#[inline(always)]
pub(crate) fn ch(x: u32x8, y: u32x8, z: u32x8) -> u32x8
    ensures { (j : ℕ) → j < 8 → slice_index result j ≡ spec.ch (slice_index x j) (slice_index y j) (slice_index z j) }
{
    let first = and(x, y);
    let rest = not(x);
    let second = and(rest, z);
    xor(first, second)
}

#[inline(always)]
pub(crate) fn maj(x: u32x8, y: u32x8, z: u32x8) -> u32x8
    ensures { (j : ℕ) → j < 8 → slice_index result j ≡ spec.maj (slice_index x j) (slice_index y j) (slice_index z j) }
{
    let xy = and(x, y);
    let xz = and(x, z);
    let yz = and(y, z);
    let two = xor(xy, xz);
    xor(two, yz)
}
