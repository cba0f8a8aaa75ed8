// LEB128 numbers (WebAssembly Core 1.0, section 5.2.2).
ghost use Rattle.std.specs.Prelude.{◌≡◌, ◌+◌, ◌*◌, ◌≤◌, ◌<◌, ◌^◌, ◌∷◌, ◌++◌, length, List, ℕ, ℤ};
ghost use Rattle.std.specs.Int.{w32, w64};
ghost use Rattle.std.specs.Int.RustNames.{FitsSigned};
ghost use Rattle.zw_bytes.specs.Leb.{unsigned_leb, signed_leb, unsigned_padded, signed_padded, groups, padded_groups, low_group as low_group_of, IsUnsignedLeb, IsSignedLeb, IsUnsignedForm, IsSignedForm};

use crate::buffer::ByteBuf;

/// Below this an unsigned number fits its last byte.
const UNSIGNED_LIMIT: u64 = 128;

/// Below this a signed number, or `-(n + 1)` for a negative one, fits its last byte beside the sign.
const SIGNED_LIMIT: u64 = 64;

impl ByteBuf {
    /// Appends an unsigned number in its shortest form, at most five bytes.
    pub fn put_u32(&mut self, v: u32)
        requires { 5 ≤ self.old.spare }
        ensures bytes { self.new.bytes ≡ self.old.bytes ++ unsigned_leb v }
        ensures spare { self.new.spare + length (unsigned_leb v) ≡ self.old.spare }
    {
        self.put_groups(u64::from(v), UNSIGNED_LIMIT, false);
    }

    /// Appends a length in its shortest form as an unsigned number, at most ten bytes.
    #[tactic(auto, using(crate::proofs::LebLemmas::length_room))]
    pub fn put_len(&mut self, n: usize)
        requires { 10 ≤ self.old.spare }
        ensures bytes { self.new.bytes ≡ self.old.bytes ++ unsigned_leb n }
        ensures spare { self.new.spare + length (unsigned_leb n) ≡ self.old.spare }
    {
        self.put_groups(n as u64, UNSIGNED_LIMIT, false);
    }

    /// Appends a signed number in its shortest form, at most five bytes.
    #[tactic(auto, using(crate::proofs::LebLemmas::signed_room, crate::proofs::LebLemmas::signed_negative, crate::proofs::LebLemmas::signed_positive))]
    pub fn put_s32(&mut self, v: i32)
        requires { 5 ≤ self.old.spare }
        ensures bytes { self.new.bytes ≡ self.old.bytes ++ signed_leb v }
        ensures spare { self.new.spare + length (signed_leb v) ≡ self.old.spare }
    {
        let magnitude = u64::from(v.unsigned_abs());
        if v < 0 {
            self.put_groups(magnitude - 1, SIGNED_LIMIT, true);
        } else {
            self.put_groups(magnitude, SIGNED_LIMIT, false);
        }
    }

    /// Appends a signed number of 64 bits in its shortest form, at most ten bytes.
    #[tactic(auto, using(crate::proofs::LebLemmas::long_signed_room, crate::proofs::LebLemmas::signed_negative, crate::proofs::LebLemmas::signed_positive))]
    pub fn put_s64(&mut self, v: i64)
        requires { 10 ≤ self.old.spare }
        ensures bytes { self.new.bytes ≡ self.old.bytes ++ signed_leb v }
        ensures spare { self.new.spare + length (signed_leb v) ≡ self.old.spare }
    {
        let magnitude = v.unsigned_abs();
        if v < 0 {
            self.put_groups(magnitude - 1, SIGNED_LIMIT, true);
        } else {
            self.put_groups(magnitude, SIGNED_LIMIT, false);
        }
    }

    /// Appends an unsigned number in five bytes, whatever it is, so that another can take its place.
    pub fn put_u32_padded(&mut self, v: u32)
        requires { 5 ≤ self.old.spare }
        ensures bytes { self.new.bytes ≡ self.old.bytes ++ unsigned_padded v }
        ensures spare { self.new.spare + 5 ≡ self.old.spare }
    {
        self.put_padded(v, false);
    }

    /// Appends a signed number in five bytes, whatever it is, so that another can take its place.
    #[tactic(auto, using(crate::proofs::LebLemmas::padded_negative, crate::proofs::LebLemmas::padded_positive))]
    pub fn put_s32_padded(&mut self, v: i32)
        requires { 5 ≤ self.old.spare }
        ensures bytes { self.new.bytes ≡ self.old.bytes ++ signed_padded v }
        ensures spare { self.new.spare + 5 ≡ self.old.spare }
    {
        let magnitude = v.unsigned_abs();
        if v < 0 {
            self.put_padded(magnitude - 1, true);
        } else {
            self.put_padded(magnitude, false);
        }
    }

    /// Appends five groups of `n`, or where `negative` says so of `-(n + 1)`.
    fn put_padded(&mut self, n: u32, negative: bool)
        requires { 5 ≤ self.old.spare }
        ensures bytes { self.new.bytes ≡ self.old.bytes ++ padded_groups negative 4 n }
        ensures spare { self.new.spare + 5 ≡ self.old.spare }
    {
        let first = u64::from(n);
        let second = first / 128;
        let third = second / 128;
        let fourth = third / 128;
        self.put(128 + low_group(first, negative));
        self.put(128 + low_group(second, negative));
        self.put(128 + low_group(third, negative));
        self.put(128 + low_group(fourth, negative));
        self.put(low_group(fourth / 128, negative));
    }

    /// Appends the groups of `n`, or where `negative` says so of `-(n + 1)`.
    fn put_groups(&mut self, n: u64, limit: u64, negative: bool)
        requires limit { (64 ≤ limit) × (limit ≤ 128) }
        requires room { length (groups limit negative 10 n) ≤ self.old.spare }
        ensures bytes { self.new.bytes ≡ self.old.bytes ++ groups limit negative 10 n }
        ensures spare { self.new.spare + length (groups limit negative 10 n) ≡ self.old.spare }
    {
        let mut rest = n;
        while rest >= limit {
            self.put(128 + low_group(rest, negative));
            rest /= 128;
        }
        self.put(low_group(rest, negative));
    }
}

/// The low seven bits of `n`, or where `negative` says so of `-(n + 1)`.
fn low_group(n: u64, negative: bool) -> u8
    ensures value { result ≡ low_group_of negative n }
    ensures small { result < 128 }
{
    let low = (n % 128) as u8;
    if negative { 127 - low } else { low }
}

/// The bytes that `put_u32` and `put_s32` append are the one form of their number: they meet the
/// grammar, and no form of a number begins another, so that what was written is read again, whatever
/// follows it.
pub fn one_form()
    ensures unsigned { (n : ℕ) → n < 2 ^ 64 → IsUnsignedLeb (unsigned_leb n) n }
    ensures unsigned_one { (a b x y : List ℕ) (m n : ℕ) → IsUnsignedLeb a m → IsUnsignedLeb b n → a ++ x ≡ b ++ y → (a ≡ b) × (m ≡ n) }
    ensures signed { (z : ℤ) → FitsSigned w64 z → IsSignedLeb (signed_leb z) z }
    ensures signed_one { (a b x y : List ℕ) (m n : ℤ) → IsSignedLeb a m → IsSignedLeb b n → a ++ x ≡ b ++ y → (a ≡ b) × (m ≡ n) }
{}

/// What `put_u32_padded` and `put_s32_padded` append is a form of their number too, and no form of
/// any number, shortest or not, begins another one's.
pub fn all_forms()
    ensures shortest_unsigned { (bs : List ℕ) (n : ℕ) → IsUnsignedLeb bs n → IsUnsignedForm bs n }
    ensures shortest_signed { (bs : List ℕ) (z : ℤ) → IsSignedLeb bs z → IsSignedForm bs z }
    ensures unsigned { (n : ℕ) → n < 2 ^ 32 → IsUnsignedForm (unsigned_padded n) n }
    ensures signed { (z : ℤ) → FitsSigned w32 z → IsSignedForm (signed_padded z) z }
    ensures unsigned_one { (a b x y : List ℕ) (m n : ℕ) → IsUnsignedForm a m → IsUnsignedForm b n → a ++ x ≡ b ++ y → (a ≡ b) × (m ≡ n) }
    ensures signed_one { (a b x y : List ℕ) (m n : ℤ) → IsSignedForm a m → IsSignedForm b n → a ++ x ≡ b ++ y → (a ≡ b) × (m ≡ n) }
{}
