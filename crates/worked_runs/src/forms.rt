// The greatest numbers of a drawn run.
ghost use Rattle.std.specs.Prelude.{◌≡◌, ◌∷◌, [], Some, String, codes, string_bytes};
ghost use Rattle.std.specs.declared.alloc.Global.{Global};
ghost use Rattle.qc_session.specs.Forms.{Gen, form_of};

/// The most rows that are drawn, with zeros in front, and the greatest seed are a form of the
/// words. Such a run takes too long for a folder.
pub fn greatest_numbers()
    ensures { (word rows seed : String Global) → string_bytes word ≡ codes "gen"
        → string_bytes rows ≡ codes "000001000000"
        → string_bytes seed ≡ codes "18446744073709551615"
        → form_of (word ∷ rows ∷ seed ∷ [])
        ≡ Some (Gen (record { rows = 1000000; seed = 18446744073709551615 })) }
{}
