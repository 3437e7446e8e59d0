// The top call.
ghost use Rattle.std.specs.Prelude.{◌≡◌, ◌≤◌, ◌<◌, ◌⊎◌, ◌↔◌, ℕ, List, [], Some, None, IfOk, IfErr, IfSome, IsNone, IsTrue, is_some, true, MatchOption, length, take};
ghost use Rattle.cube_defs.specs.declared.limits.TheConstants.{MAX_FILE, MAX_ROWS};
ghost use Rattle.qc_io.specs.Outside.{IsOpenAs, Rose, with_taken};
ghost use Rattle.qc_session.specs.Lines.{script_lines};
ghost use Rattle.generated_run.specs.Generated.{generated_record, generated_state};
ghost use Rattle.qc_session.specs.Forms.{IfGen, IfPack, IfRun, form_of};
ghost use Rattle.qc_session.specs.Runs.{AllFilesKnown, AreSkipped, Begins, BeginsNot, BrokenOff, Cause, CannotRead, CannotWrite, Finished, HasNoStart, IsNever, IsRefused, IsScriptOf, IsScriptStatus, IsStartOf, IsStatus, IsUnrefused, LongSnapshot, NotBegun, OutOfMemory, ReadFails, HasReported, Unread, Usage, state_in, status_of};
ghost use Rattle.qc_session.specs.Packs.{IsPackRefused, IsPackUnrefused, Packed, PackedPrefix};
ghost use Rattle.warehouse.specs.State.{AreContents};

use crate::failure::{Failure, report};
use crate::quiet::{SilentStop, run_silently};
use crate::session::{Session, Stop, begin, take_lines};
use crate::words::{Form, InputFiles, Source, read_words};
use cell_core::{HashKeys, Steps};
use cube_defs::MAX_FILE;
use cube_snapshot::{DecodeRefused, EncodeRefused, decode_with_keys, encode};
use generated_run::generate;
use qc_io::{Files, ReadRefused, Sink, read_all, write_all};
use qc_schema::read_schema;
use std::alloc::Global;
use std::marker::Brand;
use std::sync::ledger::{Blank, Ledger};
use text_lines::trim_byte_order_mark;
use warehouse::Warehouse;

/// How a run ended.
#[derive(Drop)]
pub struct Outcome {
    /// 0 if the script was read to its end, else the status of the failure that `err` reports.
    pub status: u8,
    /// The numbers of the lines that ran out of memory.
    pub skipped: Vec<u32>,
    /// The warehouse after the run, at status 0.
    pub end: Option<Warehouse>,
}

impl Outcome {
    /// Drops the outcome. A crate that calls this needn't prove again how a warehouse is dropped.
    pub fn discard(self) {
        let Outcome { skipped, end, .. } = self;
        drop(skipped);
        if let Some(warehouse) = end {
            warehouse.discard();
        }
    }
}

ghost use Rattle.qc_session.specs.Costs.{IsWithin, IsWithinScript, script_cost};
ghost use Rattle.qc_session.specs.Ends.{GenEnds, ReturnsWarehouse, PackEnds, PackScriptEnds, RunEnds, ScriptEnds, SnapshotEnds, files_over, sink_over};
ghost use Rattle.qc_session.specs.Failures.{cause_of};
ghost use Rattle.qc_session.specs.Quiet.{IfQuietStop};
ghost use Rattle.qc_session.specs.Ran.{Ran};
ghost use Rattle.qc_session.specs.Reading.{FilesStay, IsBlankOf};
ghost use Rattle.qc_session.specs.Session.{IfStop};
ghost use Rattle.qc_session.specs.Words.{names_in, source_in};

// Ends a run before its first line.
fn fail<E: Sink>(alloc: Global, err: &mut E, failure: Failure<'_>) -> Outcome
    ensures status { result.status ≡ status_of (cause_of failure.entry) }
    ensures skipped { result.skipped.items ≡ [] }
    ensures said { HasReported (Rose (E.faults err.old) (E.faults err.new)) (cause_of failure.entry)
        (E.taken err.old) (E.taken err.new) }
    ensures hands { ReturnsWarehouse result }
{
    report(err, &failure);
    Outcome {
        status: failure.status(),
        skipped: Vec::new(alloc),
        end: None,
    }
}

// Reads a file that the words name.
fn read_named<'a, F: Files>(
    alloc: Global,
    files: &mut F,
    name: &'a str,
) -> Result<Vec<u8>, Failure<'a>>
    ensures stay { FilesStay (F.faults files.old) (F.faults files.new) (F.told files.old)
        (F.told files.new) (F.steady files.old) (F.steady files.new) }
    ensures ok { IfOk result
        (λ bytes. IfSome (F.told files.old) (λ t. IsScriptOf t name.now bytes.items)) }
    ensures short { IfOk result (λ bytes. length bytes.items ≤ MAX_FILE) }
    ensures open_file { IsOpenAs (F.told files.old) (F.cursor files.new) name.now }
    ensures err { IfErr result
        (λ f. ReadFails (F.told files.old) name.now (Rose (F.faults files.old) (F.faults files.new))
        (IsTrue (F.steady files.old)) IsNever (cause_of f)) }
{
    match read_all(alloc, files, name, MAX_FILE) {
        Ok(bytes) => Ok(bytes),
        Err(ReadRefused::Failed) => Err(Failure::CannotRead(name)),
        Err(ReadRefused::TooLong) => Err(Failure::TooLong(name)),
        Err(ReadRefused::Memory) => Err(Failure::OutOfMemory),
    }
}

// The state that the bytes of the first file give.
fn initial_state<'a, L: Ledger>(
    alloc: Global,
    keys: HashKeys,
    source: Source,
    bytes: &[u8],
    steps: &mut Steps<L>,
) -> Result<Warehouse, Failure<'a>>
    requires { length bytes.now ≤ MAX_FILE }
    ensures begins { IfOk result
        (λ warehouse. Begins (source_in source) bytes.now warehouse.state) }
    ensures none { IfErr result (λ f. (cause_of f ≡ OutOfMemory)
        ⊎ BeginsNot (source_in source) bytes.now (cause_of f)) }
{
    match source {
        Source::FromSchema => {
            let schema = match read_schema(alloc, bytes) {
                Ok(schema) => schema,
                Err(refused) => return Err(Failure::NoSchema(refused)),
            };
            match Warehouse::with_keys(alloc, keys, schema) {
                Ok(warehouse) => Ok(warehouse),
                Err(_) => Err(Failure::OutOfMemory),
            }
        }
        Source::FromSnapshot => match decode_with_keys(alloc, keys, bytes, steps) {
            Ok(warehouse) => Ok(warehouse),
            Err(DecodeRefused::Memory) => Err(Failure::OutOfMemory),
            Err(DecodeRefused::Form | DecodeRefused::NodesFull) => Err(Failure::NoSnapshot),
        },
    }
}

// Reads the state at which a run starts.
fn read_start<'a, F: Files, L: Ledger>(
    alloc: Global,
    keys: HashKeys,
    files: &mut F,
    names: InputFiles<'a>,
    steps: &mut Steps<L>,
) -> Result<Warehouse, Failure<'a>>
    ensures stay { FilesStay (F.faults files.old) (F.faults files.new) (F.told files.old)
        (F.told files.new) (F.steady files.old) (F.steady files.new) }
    ensures ok { IfOk result
        (λ warehouse. IfSome (F.told files.old)
        (λ t. IsStartOf t (names_in names.entry) warehouse.state)) }
    ensures open_file { IsOpenAs (F.told files.old) (F.cursor files.new) names.entry.first.now }
    ensures err { IfErr result
        (λ f. ReadFails (F.told files.old) names.entry.first.now
        (Rose (F.faults files.old) (F.faults files.new))
        (IsTrue (F.steady files.old)) (HasNoStart (names_in names.entry)) (cause_of f)) }
{
    match read_named(alloc, files, names.first) {
        Ok(bytes) => initial_state(alloc, keys, names.source, &bytes, steps),
        Err(failure) => Err(failure),
    }
}

// What the two files hold: the state at the start, and the script, which is no longer than a file
// may be.
#[derive(Drop)]
struct Loaded {
    start: Warehouse,
    script: Vec<u8>,
    ghost short: { length script.items ≤ MAX_FILE },
}

// Reads the script after the first file, and passes the warehouse on.
fn read_script<'a, F: Files>(
    alloc: Global,
    files: &mut F,
    start: Warehouse,
    name: &'a str,
) -> Result<Loaded, Failure<'a>>
    ensures kept { IfOk result (λ loaded. loaded.start ≡ start) }
    ensures stay { FilesStay (F.faults files.old) (F.faults files.new) (F.told files.old)
        (F.told files.new) (F.steady files.old) (F.steady files.new) }
    ensures ok { IfOk result
        (λ loaded. IfSome (F.told files.old) (λ t. IsScriptOf t name.now loaded.script.items)) }
    ensures open_file { IsOpenAs (F.told files.old) (F.cursor files.new) name.now }
    ensures err { IfErr result
        (λ f. ReadFails (F.told files.old) name.now (Rose (F.faults files.old) (F.faults files.new))
        (IsTrue (F.steady files.old)) IsNever (cause_of f)) }
{
    match read_named(alloc, files, name) {
        Ok(script) => Ok(Loaded { start, script }),
        Err(failure) => {
            start.discard();
            Err(failure)
        }
    }
}

// Reads the first file and then the script. The steps are counted for the ledger that the blank
// names.
fn read_files<'a, F: Files, L: Ledger>(
    alloc: Global,
    keys: HashKeys,
    files: &mut F,
    names: InputFiles<'a>,
    blank: Blank,
) -> Result<Loaded, Failure<'a>>
    requires { IsBlankOf L.name L.parts blank }
    ensures stay { FilesStay (F.faults files.old) (F.faults files.new) (F.told files.old)
        (F.told files.new) (F.steady files.old) (F.steady files.new) }
    ensures start { IfOk result
        (λ loaded. IfSome (F.told files.old)
        (λ t. IsStartOf t (names_in names.entry) loaded.start.state)) }
    ensures script { IfOk result
        (λ loaded. IfSome (F.told files.old)
        (λ t. IsScriptOf t names.entry.script.now loaded.script.items)) }
    ensures open_file { IsOpenAs (F.told files.old) (F.cursor files.new) names.entry.first.now
        ⊎ IsOpenAs (F.told files.old) (F.cursor files.new) names.entry.script.now }
    ensures err { IfErr result
        (λ f. NotBegun (F.told files.old) (names_in names.entry)
        (Rose (F.faults files.old) (F.faults files.new))
        (IsTrue (F.steady files.old)) (cause_of f)) }
{
    let mut steps = Steps::<L>::start(blank);
    match read_start(alloc, keys, files, names, &mut steps) {
        Ok(start) => read_script(alloc, files, start, names.script),
        Err(failure) => Err(failure),
    }
}

// Ends a run at the end of its script.
fn finished(session: Session) -> Outcome
    ensures status { result.status ≡ 0 }
    ensures skipped { result.skipped.items ≡ session.skipped.items }
    ensures end { state_in result.end ≡ Some session.pinned.now.state }
    ensures hands { ReturnsWarehouse result }
{
    let warehouse = session.pinned.finish();
    warehouse.recall_invariant();
    Outcome {
        status: 0,
        skipped: session.skipped,
        end: Some(warehouse),
    }
}

// Ends a run before the end of its script.
fn stopped(status: u8, session: Session) -> Outcome
    requires { 0 < status }
    ensures status { result.status ≡ status }
    ensures skipped { result.skipped.items ≡ session.skipped.items }
    ensures hands { ReturnsWarehouse result }
{
    session.pinned.discard();
    Outcome {
        status,
        skipped: session.skipped,
        end: None,
    }
}

// Ends a run before the end of its script, and reports why.
fn broken_off<E: Sink>(err: &mut E, stop: Stop, session: Session) -> Outcome
    ensures skipped { result.skipped.items ≡ session.skipped.items }
    ensures ends { IfStop stop
        (λ name. (result.status ≡ 3)
        × HasReported (Rose (E.faults err.old) (E.faults err.new)) (CannotRead name)
        (E.taken err.old) (E.taken err.new))
        ((result.status ≡ 4) × HasReported (Rose (E.faults err.old) (E.faults err.new)) CannotWrite
        (E.taken err.old) (E.taken err.new)) }
    ensures hands { ReturnsWarehouse result }
{
    match stop {
        Stop::Read(name) => {
            report(err, &Failure::CannotRead(name.as_str()));
            stopped(3, session)
        }
        Stop::Write => {
            report(err, &Failure::CannotWrite);
            stopped(4, session)
        }
    }
}

// Carries out the lines of a script, starting from a state.
fn run_script<F: Files, O: Sink, E: Sink, L: Ledger>(
    alloc: Global,
    files: &mut F,
    out: &mut O,
    err: &mut E,
    loaded: Loaded,
    steps: &mut Steps<L>,
) -> Outcome
    ensures ends { ScriptEnds loaded.start.state loaded.script.items
        (files_over (F.told files.old) (F.steady files.old) (F.faults files.old)
        (F.faults files.new) (F.cursor files.old) (F.cursor files.new))
        (sink_over (O.faults out.old) (O.faults out.new) (O.taken out.old) (O.taken out.new))
        (sink_over (E.faults err.old) (E.faults err.new) (E.taken err.old) (E.taken err.new))
        (err.new ≡ err.old) result }
    ensures hands { ReturnsWarehouse result }
    ensures steps { result.status ≡ 0 → IfSome (F.told files.old)
        (λ t. IsWithin (script_cost t loaded.start.state result.skipped.items
        (script_lines loaded.script.items)) steps.old steps.new) }
{
    let Loaded { start, script } = loaded;
    let script = trim_byte_order_mark(&script);
    let Ok(mut session) = begin(alloc, start, script) else {
        return fail(alloc, err, Failure::OutOfMemory);
    };
    match take_lines(alloc, files, out, &mut session, script, steps) {
        Ok(()) => finished(session),
        Err(stop) => broken_off(err, stop, session),
    }
}

// Ends a generated run.
fn generated_outcome(alloc: Global, warehouse: Warehouse) -> Outcome
    ensures status { result.status ≡ 0 }
    ensures skipped { result.skipped.items ≡ [] }
    ensures end { state_in result.end ≡ Some warehouse.state }
    ensures hands { ReturnsWarehouse result }
{
    warehouse.recall_invariant();
    Outcome {
        status: 0,
        skipped: Vec::new(alloc),
        end: Some(warehouse),
    }
}

// Makes a warehouse of so many drawn rows, and writes its record.
fn run_generated<O: Sink, E: Sink, L: Ledger>(
    alloc: Global,
    out: &mut O,
    err: &mut E,
    rows: u32,
    seed: u64,
    steps: &mut Steps<L>,
) -> Outcome
    requires { rows ≤ MAX_ROWS }
    ensures ends { GenEnds (record { rows = rows; seed = seed })
        (sink_over (O.faults out.old) (O.faults out.new) (O.taken out.old) (O.taken out.new))
        (sink_over (E.faults err.old) (E.faults err.new) (E.taken err.old) (E.taken err.new))
        (err.new ≡ err.old) result }
    ensures hands { ReturnsWarehouse result }
{
    let Ok(generated) = generate(alloc, rows, seed, steps) else {
        return fail(alloc, err, Failure::OutOfMemory);
    };
    let text = generated.text;
    let warehouse = generated.warehouse;
    match write_all(out, &text) {
        Ok(()) => generated_outcome(alloc, warehouse),
        Err(_) => {
            warehouse.discard();
            fail(alloc, err, Failure::CannotWrite)
        }
    }
}

// Ends a run of `pack`, and writes its snapshot.
fn pack_finished<O: Sink, E: Sink>(
    alloc: Global,
    out: &mut O,
    err: &mut E,
    warehouse: Warehouse,
) -> Outcome
    ensures ends { SnapshotEnds warehouse.state
        (sink_over (O.faults out.old) (O.faults out.new) (O.taken out.old) (O.taken out.new))
        (sink_over (E.faults err.old) (E.faults err.new) (E.taken err.old) (E.taken err.new))
        (err.new ≡ err.old) result }
    ensures hands { ReturnsWarehouse result }
{
    match encode(alloc, &warehouse) {
        Ok(bytes) => match write_all(out, &bytes) {
            Ok(()) => generated_outcome(alloc, warehouse),
            Err(_) => {
                warehouse.discard();
                fail(alloc, err, Failure::CannotWrite)
            }
        },
        Err(EncodeRefused::TooLong) => {
            warehouse.discard();
            fail(alloc, err, Failure::LongSnapshot)
        }
        Err(EncodeRefused::Memory) => {
            warehouse.discard();
            fail(alloc, err, Failure::OutOfMemory)
        }
    }
}

// Ends a run of `pack` before the end of its script, and reports why.
fn pack_stopped<E: Sink>(alloc: Global, err: &mut E, stop: SilentStop) -> Outcome
    ensures skipped { result.skipped.items ≡ [] }
    ensures ends { IfQuietStop stop
        (λ name. (result.status ≡ 3)
        × HasReported (Rose (E.faults err.old) (E.faults err.new)) (CannotRead name)
        (E.taken err.old) (E.taken err.new))
        ((result.status ≡ 5) × HasReported (Rose (E.faults err.old) (E.faults err.new)) OutOfMemory
        (E.taken err.old) (E.taken err.new)) }
    ensures hands { ReturnsWarehouse result }
{
    match stop {
        SilentStop::Read(name) => fail(alloc, err, Failure::CannotRead(name.as_str())),
        SilentStop::Memory => fail(alloc, err, Failure::OutOfMemory),
    }
}

// Carries out the lines of a script, starting from a state, without their replies. Writes the
// snapshot of the state after them.
fn pack_script<F: Files, O: Sink, E: Sink, L: Ledger>(
    alloc: Global,
    files: &mut F,
    out: &mut O,
    err: &mut E,
    loaded: Loaded,
    steps: &mut Steps<L>,
) -> Outcome
    ensures ends { PackScriptEnds loaded.start.state loaded.script.items
        (files_over (F.told files.old) (F.steady files.old) (F.faults files.old)
        (F.faults files.new) (F.cursor files.old) (F.cursor files.new))
        (sink_over (O.faults out.old) (O.faults out.new) (O.taken out.old) (O.taken out.new))
        (sink_over (E.faults err.old) (E.faults err.new) (E.taken err.old) (E.taken err.new))
        (err.new ≡ err.old) result }
    ensures hands { ReturnsWarehouse result }
{
    let Loaded { start, script } = loaded;
    let script = trim_byte_order_mark(&script);
    let Ok(mut session) = begin(alloc, start, script) else {
        return fail(alloc, err, Failure::OutOfMemory);
    };
    match run_silently(alloc, files, &mut session, script, steps) {
        Ok(()) => pack_finished(alloc, out, err, session.pinned.finish()),
        Err(stop) => {
            session.discard();
            pack_stopped(alloc, err, stop)
        }
    }
}

// What the first file and the script bring: their names, and the keys under which it is hashed.
#[derive(Clone, Copy)]
struct Input<'a> {
    keys: HashKeys,
    names: InputFiles<'a>,
}

// Reads a schema and a script, and writes the snapshot of the state after the script's lines.
fn pack_files<F: Files, O: Sink, E: Sink, L: Ledger>(
    alloc: Global,
    files: &mut F,
    out: &mut O,
    err: &mut E,
    input: Input<'_>,
    steps: &mut Steps<L>,
) -> Outcome
    ensures ends { PackEnds (names_in input.entry.names)
        (files_over (F.told files.old) (F.steady files.old) (F.faults files.old)
        (F.faults files.new) (F.cursor files.old) (F.cursor files.new))
        (sink_over (O.faults out.old) (O.faults out.new) (O.taken out.old) (O.taken out.new))
        (sink_over (E.faults err.old) (E.faults err.new) (E.taken err.old) (E.taken err.new))
        (err.new ≡ err.old) result }
    ensures hands { ReturnsWarehouse result }
{
    match read_files::<F, Brand>(alloc, input.keys, files, input.names, Blank::new(1)) {
        Ok(loaded) => pack_script(alloc, files, out, err, loaded, steps),
        Err(failure) => fail(alloc, err, failure),
    }
}

// Reads the first file and a script, and carries out the script's lines. What is read is counted
// apart, from 0.
fn run_files<F: Files, O: Sink, E: Sink, L: Ledger>(
    alloc: Global,
    files: &mut F,
    out: &mut O,
    err: &mut E,
    input: Input<'_>,
    steps: &mut Steps<L>,
) -> Outcome
    ensures ends { RunEnds (names_in input.entry.names)
        (files_over (F.told files.old) (F.steady files.old) (F.faults files.old)
        (F.faults files.new) (F.cursor files.old) (F.cursor files.new))
        (sink_over (O.faults out.old) (O.faults out.new) (O.taken out.old) (O.taken out.new))
        (sink_over (E.faults err.old) (E.faults err.new) (E.taken err.old) (E.taken err.new))
        (err.new ≡ err.old) result }
    ensures hands { ReturnsWarehouse result }
    ensures steps { result.status ≡ 0 → IfSome (F.told files.old)
        (λ t. IsWithinScript t (names_in input.entry.names) result.skipped.items
        steps.old steps.new) }
{
    match read_files::<F, Brand>(alloc, input.keys, files, input.names, Blank::new(1)) {
        Ok(loaded) => run_script(alloc, files, out, err, loaded, steps),
        Err(failure) => fail(alloc, err, failure),
    }
}

// The words of a run, and the keys under which what the files bring is hashed.
#[derive(Clone, Copy)]
struct Request<'a> {
    keys: HashKeys,
    words: &'a [String],
}

// Carries out a request.
fn run_request<F: Files, O: Sink, E: Sink, L: Ledger>(
    alloc: Global,
    request: Request<'_>,
    files: &mut F,
    out: &mut O,
    err: &mut E,
    steps: &mut Steps<L>,
) -> Outcome
    ensures ran { Ran (form_of request.entry.words.now)
        (files_over (F.told files.old) (F.steady files.old) (F.faults files.old)
        (F.faults files.new) (F.cursor files.old) (F.cursor files.new))
        (sink_over (O.faults out.old) (O.faults out.new) (O.taken out.old) (O.taken out.new))
        (sink_over (E.faults err.old) (E.faults err.new) (E.taken err.old) (E.taken err.new))
        (files.new ≡ files.old) (out.new ≡ out.old) (err.new ≡ err.old) result }
    ensures steps { result.status ≡ 0
        → IfRun (form_of request.entry.words.now) (λ names. IfSome (F.told files.old)
        (λ t. IsWithinScript t names result.skipped.items steps.old steps.new)) }
{
    let keys = request.keys;
    match read_words(request.words) {
        Form::Run(names) => run_files(alloc, files, out, err, Input { keys, names }, steps),
        Form::Pack(names) => pack_files(alloc, files, out, err, Input { keys, names }, steps),
        Form::Gen(rows, seed) => run_generated(alloc, out, err, rows, seed, steps),
        Form::Invalid => fail(alloc, err, Failure::Usage),
    }
}

// Carries out a request. The steps are counted for the ledger that the blank names.
fn run_on<F: Files, O: Sink, E: Sink, L: Ledger>(
    alloc: Global,
    request: Request<'_>,
    files: &mut F,
    out: &mut O,
    err: &mut E,
    blank: Blank,
) -> Outcome
    requires { IsBlankOf L.name L.parts blank }
    ensures { Ran (form_of request.entry.words.now)
        (files_over (F.told files.old) (F.steady files.old) (F.faults files.old)
        (F.faults files.new) (F.cursor files.old) (F.cursor files.new))
        (sink_over (O.faults out.old) (O.faults out.new) (O.taken out.old) (O.taken out.new))
        (sink_over (E.faults err.old) (E.faults err.new) (E.taken err.old) (E.taken err.new))
        (files.new ≡ files.old) (out.new ≡ out.old) (err.new ≡ err.old) result }
{
    let mut steps = Steps::<L>::start(blank);
    run_request(alloc, request, files, out, err, &mut steps)
}

/// Does what `run` does. What the files bring is hashed under these keys, which change no answer.
pub fn run_with_keys<F: Files, O: Sink, E: Sink>(
    alloc: Global,
    keys: HashKeys,
    words: &[String],
    files: &mut F,
    out: &mut O,
    err: &mut E,
) -> Outcome
    ensures { Ran (form_of words.now)
        (files_over (F.told files.old) (F.steady files.old) (F.faults files.old)
        (F.faults files.new) (F.cursor files.old) (F.cursor files.new))
        (sink_over (O.faults out.old) (O.faults out.new) (O.taken out.old) (O.taken out.new))
        (sink_over (E.faults err.old) (E.faults err.new) (E.taken err.old) (E.taken err.new))
        (files.new ≡ files.old) (out.new ≡ out.old) (err.new ≡ err.old) result }
{
    let request = Request { keys, words };
    run_on::<F, O, E, Brand>(alloc, request, files, out, err, Blank::new(1))
}

/// Does what `run` does, and counts the steps of a script's lines, of `pack`'s too, and of the rows
/// that `gen` makes. What it takes to read the first file isn't counted here.
///
/// At status 0 the lines of a run of `run` or `open` took at most the steps that they may cost,
/// where each of them has a bound (`script_cost`). An applied batch costs what its changes may, and
/// so the tree isn't built from scratch for it.
pub fn run_counted<F: Files, O: Sink, E: Sink, L: Ledger>(
    alloc: Global,
    words: &[String],
    files: &mut F,
    out: &mut O,
    err: &mut E,
    steps: &mut Steps<L>,
) -> Outcome
    ensures ran { Ran (form_of words.now)
        (files_over (F.told files.old) (F.steady files.old) (F.faults files.old)
        (F.faults files.new) (F.cursor files.old) (F.cursor files.new))
        (sink_over (O.faults out.old) (O.faults out.new) (O.taken out.old) (O.taken out.new))
        (sink_over (E.faults err.old) (E.faults err.new) (E.taken err.old) (E.taken err.new))
        (files.new ≡ files.old) (out.new ≡ out.old) (err.new ≡ err.old) result }
    ensures steps { result.status ≡ 0
        → IfRun (form_of words.now) (λ names. IfSome (F.told files.old)
        (λ t. IsWithinScript t names result.skipped.items steps.old steps.new)) }
{
    let keys = HashKeys::fixed();
    run_request(alloc, Request { keys, words }, files, out, err, steps)
}

/// Runs `qcube` with these words.
///
/// `run SCHEMA SCRIPT` reads a schema, and carries out the lines of a script in order, each with
/// its reply on `out`. `open SNAPSHOT SCRIPT` does the same from the state whose snapshot it reads.
/// `pack SCHEMA SCRIPT` carries out the lines without their replies, and writes the snapshot of the
/// state after them on `out`. `gen ROWS SEED` draws so many rows and the batches that follow them
/// from the seed, and writes one record on `out`.
///
/// Status 0: the script was read to its end, or the record or the snapshot was written. Status 2:
/// usage error, the words have no listed form. Status 3: a file couldn't be read. Status 4: `out`
/// failed. Status 5: out of memory before the first line, or anywhere in `gen` or `pack`. Status 6:
/// the schema is wrong, or the bytes are the snapshot of no state. It is also the status if one of
/// the two files, or the snapshot to be written, has more than 268,435,456 bytes. `err` gets one
/// line at each status but 0.
///
/// A line that runs out of memory changes nothing. Its number is put into `skipped`, and its reply
/// says so.
pub fn run<F: Files, O: Sink, E: Sink>(
    alloc: Global,
    words: &[String],
    files: &mut F,
    out: &mut O,
    err: &mut E,
) -> Outcome
    ensures known { IsStatus result.status }

    // Status 0: the transcript, whole.
    ensures transcript { result.status ≡ 0
        → IfRun (form_of words.now) (λ names. IfSome (F.told files.old)
        (λ t. Finished t names result.skipped.items (state_in result.end) (O.taken out.old)
        (O.taken out.new))) }
    ensures silent { result.status ≡ 0 → err.new ≡ err.old }
    ensures ended { result.status ≡ 0 → is_some result.end ≡ true }
    ensures held { IfSome result.end AreContents }
    ensures no_end { (result.status ≡ 0 → ⊥) → result.end ≡ None }
    ensures skipped { IfRun (form_of words.now) (λ names. IfSome (F.told files.old)
        (λ t. MatchOption (t names.script) (result.skipped.items ≡ [])
        (λ script. AreSkipped (script_lines script) result.skipped.items))) }

    // Status 2: the words.
    ensures usage { result.status ≡ 2 ↔ IsNone (form_of words.now) }
    ensures unopened { result.status ≡ 2 → (files.new ≡ files.old) × (out.new ≡ out.old)
        × (result.skipped.items ≡ []) }
    ensures said_usage { result.status ≡ 2
        → HasReported (Rose (E.faults err.old) (E.faults err.new)) Usage (E.taken err.old)
        (E.taken err.new) }

    // Status 3: a fault of the files.
    ensures read_fault { result.status ≡ 3 → Rose (F.faults files.old) (F.faults files.new) }
    ensures unread { result.status ≡ 3
        → IfRun (form_of words.now) (λ names. IfSome (F.told files.old) (λ t. (name : List ℕ)
        × Unread t (IsTrue (F.steady files.old)) names result.skipped.items name (O.taken out.old)
        (O.taken out.new)
        × HasReported (Rose (E.faults err.old) (E.faults err.new)) (CannotRead name)
        (E.taken err.old) (E.taken err.new))) }

    // Status 4: a fault of out.
    ensures write_fault { result.status ≡ 4 → Rose (O.faults out.old) (O.faults out.new) }
    ensures broken_off { result.status ≡ 4
        → IfRun (form_of words.now) (λ names. IfSome (F.told files.old)
        (λ t. BrokenOff t names result.skipped.items (O.taken out.old) (O.taken out.new))) }
    ensures said_write { result.status ≡ 4
        → HasReported (Rose (E.faults err.old) (E.faults err.new)) CannotWrite (E.taken err.old)
        (E.taken err.new) }

    // Status 5 and 6: nothing was begun.
    ensures nothing { (result.status ≡ 5) ⊎ (result.status ≡ 6)
        → (O.taken out.new ≡ O.taken out.old) × (result.skipped.items ≡ []) }
    ensures unbegun { result.status ≡ 5 → IfRun (form_of words.now) (λ names.
        IsOpenAs (F.told files.old) (F.cursor files.new) names.first
        ⊎ IsOpenAs (F.told files.old) (F.cursor files.new) names.script) }
    ensures said_memory { result.status ≡ 5
        → HasReported (Rose (E.faults err.old) (E.faults err.new)) OutOfMemory (E.taken err.old)
        (E.taken err.new) }
    ensures refused { result.status ≡ 6
        → IfRun (form_of words.now) (λ names. IfSome (F.told files.old) (λ t. (cause : Cause)
        × IsRefused t names cause
        × HasReported (Rose (E.faults err.old) (E.faults err.new)) cause (E.taken err.old)
        (E.taken err.new))) }

    // A refused schema or script ends with 6, unless memory or a fault came first. All else is
    // carried out.
    ensures refusal { IfRun (form_of words.now) (λ names. IfSome (F.told files.old) (λ t.
        (cause : Cause) → IsRefused t names cause → (result.status ≡ 6) ⊎ (result.status ≡ 5)
        ⊎ (result.status ≡ 3))) }
    ensures complete { IfRun (form_of words.now) (λ names. IfSome (F.told files.old) (λ t.
        IsUnrefused t names
        → (Rose (F.faults files.old) (F.faults files.new) → ⊥)
        → (Rose (O.faults out.old) (O.faults out.new) → ⊥)
        → (result.status ≡ 0) ⊎ (result.status ≡ 5))) }
    ensures found { IsTrue (F.steady files.old) → IfRun (form_of words.now)
        (λ names. IfSome (F.told files.old) (λ t. AllFilesKnown t names → result.status ≡ 3 → ⊥)) }
    ensures complete_steady { IsTrue (F.steady files.old)
        → IfRun (form_of words.now) (λ names. IfSome (F.told files.old) (λ t.
        AllFilesKnown t names → IsUnrefused t names
        → (Rose (O.faults out.old) (O.faults out.new) → ⊥) → (result.status ≡ 0)
        ⊎ (result.status ≡ 5))) }

    // The words `pack SCHEMA SCRIPT`: the snapshot of the state at the script's end.
    ensures pack_known { IfPack (form_of words.now) (λ names. IsScriptStatus result.status
        × (result.skipped.items ≡ [])) }
    ensures pack_all { result.status ≡ 0
        → IfPack (form_of words.now) (λ names. IfSome (F.told files.old)
        (λ t. Packed t names (state_in result.end) (O.taken out.old) (O.taken out.new))) }
    ensures pack_nothing { result.status ≡ 3
        → IfPack (form_of words.now) (λ names. O.taken out.new ≡ O.taken out.old) }
    ensures pack_unread { result.status ≡ 3
        → IfPack (form_of words.now) (λ names. IfSome (F.told files.old) (λ t. (name : List ℕ)
        × Unread t (IsTrue (F.steady files.old)) names [] name None None
        × HasReported (Rose (E.faults err.old) (E.faults err.new)) (CannotRead name)
        (E.taken err.old) (E.taken err.new))) }
    ensures pack_front { result.status ≡ 4
        → IfPack (form_of words.now) (λ names. IfSome (F.told files.old)
        (λ t. PackedPrefix t names (O.taken out.old) (O.taken out.new))) }
    ensures pack_refused { result.status ≡ 6
        → IfPack (form_of words.now) (λ names. IfSome (F.told files.old) (λ t. (cause : Cause)
        × IsPackRefused t names cause
        × HasReported (Rose (E.faults err.old) (E.faults err.new)) cause (E.taken err.old)
        (E.taken err.new))) }
    ensures pack_refusal { IfPack (form_of words.now)
        (λ names. IfSome (F.told files.old) (λ t. (cause : Cause) → IsPackRefused t names cause
        → (result.status ≡ 6) ⊎ (result.status ≡ 5) ⊎ (result.status ≡ 3))) }
    ensures pack_complete { IfPack (form_of words.now)
        (λ names. IfSome (F.told files.old) (λ t. IsPackUnrefused t names
        → (Rose (F.faults files.old) (F.faults files.new) → ⊥)
        → (Rose (O.faults out.old) (O.faults out.new) → ⊥)
        → (result.status ≡ 0) ⊎ (result.status ≡ 5))) }
    ensures pack_found { IsTrue (F.steady files.old) → IfPack (form_of words.now)
        (λ names. IfSome (F.told files.old) (λ t. AllFilesKnown t names → result.status ≡ 3 → ⊥)) }
    ensures pack_complete_steady { IsTrue (F.steady files.old)
        → IfPack (form_of words.now) (λ names. IfSome (F.told files.old) (λ t.
        AllFilesKnown t names → IsPackUnrefused t names
        → (Rose (O.faults out.old) (O.faults out.new) → ⊥) → (result.status ≡ 0)
        ⊎ (result.status ≡ 5))) }

    // The words `gen ROWS SEED`: the record of the generated state, and no other status.
    ensures gen_known { IfGen (form_of words.now)
        (λ drawing. ((result.status ≡ 0) ⊎ (result.status ≡ 4) ⊎ (result.status ≡ 5))
        × (result.skipped.items ≡ [])) }
    ensures gen_files { IfGen (form_of words.now) (λ drawing. files.new ≡ files.old) }
    ensures gen_end { result.status ≡ 0
        → IfGen (form_of words.now)
        (λ drawing. state_in result.end ≡ Some (generated_state drawing.rows drawing.seed)) }
    ensures gen_all { result.status ≡ 0 → IfGen (form_of words.now)
        (λ drawing. O.taken out.new ≡ with_taken (generated_record drawing.rows drawing.seed)
        (O.taken out.old)) }
    ensures gen_front { result.status ≡ 4 → IfGen (form_of words.now) (λ drawing. (n : ℕ)
        × (O.taken out.new ≡ with_taken (take n (generated_record drawing.rows drawing.seed))
        (O.taken out.old))) }
{
    run_with_keys(alloc, HashKeys::fixed(), words, files, out, err)
}
