//! A snapshot has one encoding.
ghost use Rattle.std.specs.Prelude.{List, Some, ℕ, ◌↔◌, ◌≡◌};
ghost use Rattle.warehouse.specs.State.{IsState, State};
ghost use Rattle.cube_snapshot.specs.Format.{IsBytes, whole};
ghost use Rattle.cube_snapshot.specs.Snapshot.{IsSnapshot, Parts, snapshot};
ghost use Rattle.cube_snapshot.specs.States.{spelling};

/// Bytes are read as parts exactly if they are the encoding of those parts. So bytes are the
/// encoding of at most one value, and values with one encoding are equal. Two states with one
/// encoding are equal.
pub fn a_snapshot_has_one_spelling()
    ensures read { (bytes : List ℕ) (p : Parts) → IsBytes bytes → (whole snapshot bytes ≡ Some p)
        ↔ ((bytes ≡ snapshot.put p) × IsSnapshot p) }
    ensures same { (p q : Parts) → IsSnapshot p → IsSnapshot q
        → snapshot.put p ≡ snapshot.put q → p ≡ q }
    ensures states { (s t : State) → IsState s → IsState t
        → spelling s ≡ spelling t → s ≡ t }
{}
