// Arithmetic on 32-bit words in two's complement, kept as u32.
#![tactic(auto, using(crate::proofs::Exact::exact))]

ghost use Rattle.std.specs.Prelude.{◌≡◌, ◌<◌};
ghost use Rattle.words.specs.Word.{negated, denied, absolute, sum, difference, product, quotient, remainder, less, less_equal, equal, not_equal};

pub fn neg(a: u32) -> u32
    ensures { result ≡ negated a }
{
    a.wrapping_neg()
}

pub fn not(a: u32) -> u32
    ensures { result ≡ denied a }
{
    u32::from(a == 0)
}

// The lowest number, which has no opposite, stays as it is.
pub fn abs(a: u32) -> u32
    ensures { result ≡ absolute a }
{
    a.cast_signed().unsigned_abs()
}

pub fn add(a: u32, b: u32) -> u32
    ensures { result ≡ sum a b }
{
    a.wrapping_add(b)
}

pub fn sub(a: u32, b: u32) -> u32
    ensures { result ≡ difference a b }
{
    a.wrapping_sub(b)
}

pub fn mul(a: u32, b: u32) -> u32
    ensures { result ≡ product a b }
{
    a.wrapping_mul(b)
}

// The lowest number over -1, whose quotient does not fit, stays as it is.
pub fn div(a: u32, b: u32) -> u32
    requires { 0 < b }
    ensures { result ≡ quotient a b }
{
    let quotient = a.cast_signed().wrapping_div(b.cast_signed());
    quotient.cast_unsigned()
}

pub fn rem(a: u32, b: u32) -> u32
    requires { 0 < b }
    ensures { result ≡ remainder a b }
{
    let remainder = a.cast_signed().wrapping_rem(b.cast_signed());
    remainder.cast_unsigned()
}

pub fn is_less(a: u32, b: u32) -> u32
    ensures { result ≡ less a b }
{
    u32::from(a.cast_signed() < b.cast_signed())
}

pub fn is_less_equal(a: u32, b: u32) -> u32
    ensures { result ≡ less_equal a b }
{
    u32::from(a.cast_signed() <= b.cast_signed())
}

pub fn is_equal(a: u32, b: u32) -> u32
    ensures { result ≡ equal a b }
{
    u32::from(a == b)
}

pub fn is_not_equal(a: u32, b: u32) -> u32
    ensures { result ≡ not_equal a b }
{
    u32::from(a != b)
}
