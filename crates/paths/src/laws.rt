//! Laws of paths, for the crates above.

ghost use Rattle.std.specs.Prelude.{◌≡◌, ◌++◌, ◌∷◌, []};
ghost use Rattle.std.specs.FinMap as finite;
ghost use Rattle.std.specs.Cmp.{IsTotalOrder};
ghost use Rattle.std.specs.declared.cmp.Ordering.TheVariants.{Less};
ghost use Rattle.paths.specs.Paths.{RdnKey, Path, path_cmp};

/// Paths are in a total order, in which each comes after its parent, and only equal ones tie.
pub fn order_of_paths()
    ensures total { IsTotalOrder path_cmp }
    ensures exact { finite.IsAntisymmetric path_cmp }
    ensures parent_first { (p : Path) (s : RdnKey) → path_cmp p (p ++ s ∷ []) ≡ Less }
{}
