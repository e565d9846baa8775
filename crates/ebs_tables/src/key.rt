// What a table is keyed by, and what copies exactly.

/// A key, which compares alike with itself alone.
pub trait Key: Ord + Drop {
    ghost use Rattle.std.specs.FinMap as map;

    ghost exact: { map.IsAntisymmetric Self.Ord.cmp };
}

impl Key for u32 {
    ghost use Rattle.std.specs.FinMap.{nat_cmp-IsAntisymmetric};

    ghost exact = { nat_cmp-IsAntisymmetric };
}

impl Key for u64 {
    ghost use Rattle.std.specs.FinMap.{nat_cmp-IsAntisymmetric};

    ghost exact = { nat_cmp-IsAntisymmetric };
}

/// A value whose clone is the same value.
pub trait ExactClone: Clone {
    ghost use Rattle.std.specs.Prelude.{◌≡◌};

    ghost same: { (x y : Self) → Self.Clone.is_clone x y → y ≡ x };
}

impl ExactClone for () {
    ghost use Rattle.std.specs.Prelude.{refl};

    ghost same = { λ x y e. refl };
}

impl ExactClone for u32 {
    ghost same = { λ x y e. e };
}

impl ExactClone for u64 {
    ghost same = { λ x y e. e };
}

impl<V: ExactClone> ExactClone for Option<V> {
    ghost use Rattle.std.specs.Prelude.{None, Some, refl};
    ghost use Rattle.std.proofs.Common.{ap};

    ghost same = { elim [
      | None ↦ elim [ None ↦ λ e. refl | Some b ↦ λ e. absurd e ]
      | Some a ↦ elim [ None ↦ λ e. absurd e | Some b ↦ λ e. ap Some (V.ExactClone.same a b e) ]
    ] };
}
