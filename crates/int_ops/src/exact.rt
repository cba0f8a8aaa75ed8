// Exact results. The operands have 128 bits, and a sum, a product or a quotient may have more.
ghost use Rattle.std.specs.Prelude.{pos, ◌+ℤ◌, ◌-ℤ◌, ◌*ℤ◌, ◌≢◌, int_div, IsTrue, ◌<ℤ◌};
ghost use Rattle.int_ops.specs.Exact.{StandsFor};

/// An exact result: itself where it fits 128 bits, and else the side on which it lies, with what
/// wrapping leaves of it in 128 bits.
#[derive(Clone, Copy, PartialEq, Eq, Debug)]
pub(crate) enum Exact {
    Inside(i128),
    Above(i128),
    Below(i128),
}

pub(crate) fn exact_sum(a: i128, b: i128) -> Exact
    ensures { StandsFor result (a +ℤ b) }
{
    match a.checked_add(b) {
        Some(sum) => Exact::Inside(sum),
        None if a < 0 => Exact::Below(a.wrapping_add(b)),
        None => Exact::Above(a.wrapping_add(b)),
    }
}

pub(crate) fn exact_difference(a: i128, b: i128) -> Exact
    ensures { StandsFor result (a -ℤ b) }
{
    match a.checked_sub(b) {
        Some(difference) => Exact::Inside(difference),
        None if a < 0 => Exact::Below(a.wrapping_sub(b)),
        None => Exact::Above(a.wrapping_sub(b)),
    }
}

pub(crate) fn exact_product(a: i128, b: i128) -> Exact
    ensures { StandsFor result (a *ℤ b) }
{
    match a.checked_mul(b) {
        Some(product) => Exact::Inside(product),
        None if (a < 0) != (b < 0) => Exact::Below(a.wrapping_mul(b)),
        None => Exact::Above(a.wrapping_mul(b)),
    }
}
