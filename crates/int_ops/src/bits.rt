// The operations on bits. Two's complement of 128 bits has the bits of every operand.
ghost use Rattle.std.specs.Prelude.{◌≡◌, ℕ, ◌+◌, ◌%◌, min, max};
ghost use Rattle.int_ops.specs.Bits.{int_and, int_or, int_xor, int_bit_at};

pub(crate) fn and(a: i128, b: i128) -> i128
    ensures value { result ≡ int_and a b }
    ensures each_bit { (i : ℕ) → int_bit_at result i ≡ min (int_bit_at a i) (int_bit_at b i) }
{
    a & b
}

pub(crate) fn or(a: i128, b: i128) -> i128
    ensures value { result ≡ int_or a b }
    ensures each_bit { (i : ℕ) → int_bit_at result i ≡ max (int_bit_at a i) (int_bit_at b i) }
{
    a | b
}

pub(crate) fn xor(a: i128, b: i128) -> i128
    ensures value { result ≡ int_xor a b }
    ensures each_bit { (i : ℕ) → int_bit_at result i ≡ (int_bit_at a i + int_bit_at b i) % 2 }
{
    a ^ b
}
