//! The null bits of a row's body.
ghost use Rattle.std.specs.Prelude.{◌≡◌, ◌/◌, ◌<◌, length};
ghost use Rattle.vx_rows.specs.Nulls.{is_null_in, SetsBit};

/// Whether the field is null, by the null bits that these bytes begin with.
#[tactic(auto, unfolding(crate::specs::Nulls::is_null_in))]
pub(crate) fn is_null(bits: &[u8], which: u32) -> bool
    requires { which / 8 < length bits.now }
    ensures { result ≡ is_null_in bits.now which }
{
    (bits[(which / 8) as usize] >> (which % 8)) & 1 == 1
}

/// A byte of null bits with one of them set or cleared, and the others as they were.
pub(crate) fn with_null(byte: u8, bit: u32, null: bool) -> u8
    requires { bit < 8 }
    ensures { SetsBit byte result bit null }
{
    let mask = 1u8 << bit;
    if null { byte | mask } else { byte & !mask }
}
