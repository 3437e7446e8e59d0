// The top call for a program, which returns the status alone.
ghost use Rattle.std.specs.Prelude.{◌≡◌, ◌⊎◌, ◌↔◌, List, ℕ, Option, IfSome, IsNone, IsTrue};
ghost use Rattle.generated_run.specs.Generated.{generated_record};
ghost use Rattle.qc_io.specs.Outside.{Rose, with_taken};
ghost use Rattle.qc_session.specs.Forms.{IfGen, IfPack, IfRun, form_of};
ghost use Rattle.qc_session.specs.Packs.{IsPackRefused, IsPackUnrefused, Packed};
ghost use Rattle.qc_session.specs.Runs.{AllFilesKnown, Cause, Finished, IsRefused, IsStatus, IsUnrefused};
ghost use Rattle.warehouse.specs.State.{State};

use crate::scripts::{Outcome, run_with_keys};
use cell_core::HashKeys;
use qc_io::{Files, Sink};
use std::alloc::Global;
use std::mem;

// An outcome that is left to the system when the program ends. Its drop is a call, so this crate
// needn't prove how each part of a warehouse is dropped.
struct LeftOutcome {
    outcome: Outcome,
}

impl Drop for LeftOutcome {
    fn drop(self) {
        let LeftOutcome { outcome } = self;
        outcome.discard();
    }
}

/// Runs as `run_with_keys` does, and answers the status alone. That call's promises about the lines
/// that ran out of memory, and about the state at the end, hold here for some such lines and some
/// state. The memory of that state isn't freed: a program ends after this call, and the system
/// takes it back.
pub fn run_to_status<F: Files, O: Sink, E: Sink>(
    alloc: Global,
    keys: HashKeys,
    words: &[String],
    files: &mut F,
    out: &mut O,
    err: &mut E,
) -> u8
    ensures known { IsStatus result }
    ensures usage { result ≡ 2 ↔ IsNone (form_of words.now) }

    // Status 0: the transcript, the snapshot or the record, whole.
    ensures transcript { result ≡ 0 → (skipped : List ℕ) × (end : Option State)
        × IfRun (form_of words.now) (λ names.
        IfSome (F.told files.old)
        (λ t. Finished t names skipped end (O.taken out.old) (O.taken out.new))) }
    ensures pack_all { result ≡ 0 → (end : Option State) × IfPack (form_of words.now) (λ names.
        IfSome (F.told files.old) (λ t. Packed t names end (O.taken out.old) (O.taken out.new))) }
    ensures gen_all { result ≡ 0 → IfGen (form_of words.now)
        (λ drawing. O.taken out.new ≡ with_taken (generated_record drawing.rows drawing.seed)
        (O.taken out.old)) }
    ensures silent { result ≡ 0 → err.new ≡ err.old }

    // The other statuses.
    ensures read_fault { result ≡ 3 → Rose (F.faults files.old) (F.faults files.new) }
    ensures write_fault { result ≡ 4 → Rose (O.faults out.old) (O.faults out.new) }
    ensures refusal { IfRun (form_of words.now) (λ names. IfSome (F.told files.old) (λ t.
        (cause : Cause) → IsRefused t names cause → (result ≡ 6) ⊎ (result ≡ 5) ⊎ (result ≡ 3))) }
    ensures complete { IfRun (form_of words.now) (λ names. IfSome (F.told files.old) (λ t.
        IsUnrefused t names
        → (Rose (F.faults files.old) (F.faults files.new) → ⊥)
        → (Rose (O.faults out.old) (O.faults out.new) → ⊥)
        → (result ≡ 0) ⊎ (result ≡ 5))) }
    ensures complete_steady { IsTrue (F.steady files.old)
        → IfRun (form_of words.now) (λ names. IfSome (F.told files.old) (λ t.
        AllFilesKnown t names → IsUnrefused t names
        → (Rose (O.faults out.old) (O.faults out.new) → ⊥) → (result ≡ 0) ⊎ (result ≡ 5))) }
    ensures pack_refusal { IfPack (form_of words.now)
        (λ names. IfSome (F.told files.old) (λ t. (cause : Cause) → IsPackRefused t names cause
        → (result ≡ 6) ⊎ (result ≡ 5) ⊎ (result ≡ 3))) }
    ensures pack_complete { IfPack (form_of words.now)
        (λ names. IfSome (F.told files.old) (λ t. IsPackUnrefused t names
        → (Rose (F.faults files.old) (F.faults files.new) → ⊥)
        → (Rose (O.faults out.old) (O.faults out.new) → ⊥)
        → (result ≡ 0) ⊎ (result ≡ 5))) }
{
    let outcome = run_with_keys(alloc, keys, words, files, out, err);
    let status = outcome.status;
    mem::forget(LeftOutcome { outcome });
    status
}
