// Signed numbers: the size of one, and a size with the sign of another.
#![tactic(auto)]

ghost use Rattle.std.specs.Prelude.{◌≡◌, nat_abs};
ghost use Rattle.std.specs.Int.{w64};
ghost use Rattle.signed.specs.Sign.{sign_as, nearest};

// The size of a number. The least one's, 2^31, fits an unsigned number.
// Kept: the two sizes are a method of std each; one function over both widths would need a trait with a law, and be no plainer.
pub fn size32(z: i32) -> u32
    ensures { result ≡ nat_abs z }
{
    z.unsigned_abs()
}

// The size of a number. The least one's, 2^63, fits an unsigned number.
pub fn size64(z: i64) -> u64
    ensures { result ≡ nat_abs z }
{
    z.unsigned_abs()
}

// `n` with the sign of `z`; where that does not fit, the number nearest to it.
pub fn with_sign_of(z: i64, n: u64) -> i64
    ensures { result ≡ nearest w64 (sign_as z n) }
{
    if z < 0 {
        0i64.saturating_sub_unsigned(n)
    } else {
        0i64.saturating_add_unsigned(n)
    }
}
