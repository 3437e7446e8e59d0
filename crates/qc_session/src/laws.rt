//! Laws of runs, each the contract of a function with an empty body.
ghost use Rattle.std.specs.Prelude.{IfSome, List, Option, Some, [], ℕ, ◌++◌, ◌↔◌, ◌≡◌};
ghost use Rattle.qc_io.specs.Outside.{FileContents};
ghost use Rattle.warehouse.specs.State.{IsState, State};
ghost use Rattle.qc_session.specs.Forms.{FileNames, FromSnapshot};
ghost use Rattle.qc_session.specs.Packs.{Leads, Packed};
ghost use Rattle.qc_session.specs.Pins.{unpinned};
ghost use Rattle.qc_session.specs.Runs.{IsStartOf, Took};

/// A run of `open` starts exactly at the state at which the script of a run of `pack` ended, if its
/// first file has the bytes that `pack` wrote. `run` promises the two premises of `pack` at status
/// 0, over a sink that records what it takes.
pub fn a_snapshot_opens_where_its_script_ended()
    ensures { (told told2 : FileContents) (names names2 : FileNames) (end : Option State)
        (bytes : List ℕ) → Packed told names end (Some []) (Some bytes) → IfSome end IsState
        → names2.source ≡ FromSnapshot → told2 names2.first ≡ Some bytes
        → (start : State) → (IsStartOf told2 names2 start) ↔ (end ≡ Some start) }
{}

/// A script that is cut between two lines leads to the same state, if the second part begins at the
/// state where the first one ended. No line is skipped, and no name is pinned at the cut: pins end
/// with their script, and a dimension can't come beside one.
pub fn a_script_may_be_cut_in_two()
    ensures { (told : FileContents) (start middle end : State) (first second : List (List ℕ))
        (replies : List ℕ) → Took told start [] first (unpinned middle) replies
        → (Leads told middle second end) ↔ (Leads told start (first ++ second) end) }
{}
