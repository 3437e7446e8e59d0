//! The values of a base table.
ghost use Rattle.std.specs.FinMap.{IsAntisymmetric, nat_cmp-IsAntisymmetric, slice_cmp-IsAntisymmetric};

/// A type of values with a total order: only equal values compare as equal. Each law of this crate
/// holds over every such type.
pub trait Value: Ord {
    /// Values that compare as equal are the same.
    ghost apart: { IsAntisymmetric Self.cmp };
}

/// The codes of texts.
impl Value for u32 {
    ghost apart = { nat_cmp-IsAntisymmetric };
}

/// Texts of one length, as their bytes.
impl<const N: usize> Value for [u8; N] {
    ghost apart = { slice_cmp-IsAntisymmetric nat_cmp-IsAntisymmetric };
}
