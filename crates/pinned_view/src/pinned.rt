// A warehouse with its pinned versions.
ghost use Rattle.std.specs.FinMap as finmap;
ghost use Rattle.std.specs.Prelude.{Err, IfNone, IfOk, IfSome, IsErr, IsSome, None, OnErr, OnOk, Some, [], length, true, ◌+◌, ◌++◌, ◌<◌, ◌∷◌, ◌↔◌, ◌≡◌, ◌≢◌, ◌≤◌};
ghost use Rattle.cell_core.specs.Gives.{Gives};
ghost use Rattle.csv_load.specs.Files.{batch_in};
ghost use Rattle.qc_schema.specs.Grammar.{is_new_name};
ghost use Rattle.pinned_view.specs.Refusals.{pin_refusal, widen_refusal_in};
ghost use Rattle.pinned_view.specs.Past.{StoresNoMore};
ghost use Rattle.pinned_view.specs.Stored.{HasFewLists, StoresNoOtherNodes};
ghost use Rattle.pinned_view.specs.Versions.{AreVersions, ShowsSame, Version, version_now, version_of, without};
ghost use Rattle.pinned_view.specs.Views.{AreLast, IsViewOf};
ghost use Rattle.warehouse.specs.Batch as batches;
ghost use Rattle.warehouse.specs.InPlace.{IsWithinCost, LeavesOtherRecords, LeavesNumbers};
ghost use Rattle.warehouse.specs.Loading.{cost_of_load};
ghost use Rattle.warehouse.specs.State.{AreContents, State};
ghost use Rattle.warehouse.specs.Stored.{applied_in, refusal_in};
ghost use Rattle.warehouse.specs.Widening as widening;
ghost use Rattle.warehouse.specs.Widening.{KeepsWidened, cost_of_widening, widen_result};

use crate::pins::{MAX_PINS, Pin, drop_named, oldest, pin_of, shift_places};
use crate::refused::{NotPinned, PinRefused, PinnedWiden};
use crate::stored_images::{drop_oldest, images_since, keep_images, reserve_one, settle};
use crate::view::PinnedView;
use cell_core::Steps;
use cube_defs::{MAX_FILE, MAX_TEXT, Memory};
use qc_arena::Images;
use std::alloc::{AllocError, Global};
use std::marker::Model;
use std::sync::ledger::Ledger;
use warehouse::{Applied, Refused, Warehouse, WidenRefused};

/// A warehouse, and versions of it that are pinned under names. Whatever files it takes afterwards,
/// each version can be read as it was. A pin copies no node. The before-images of each change are
/// stored once for all pins. A read of a version looks through those that were stored since it was
/// pinned.
#[derive(Drop)]
pub struct Pinned {
    warehouse: Warehouse,
    kept: Vec<Images>,
    pins: Vec<Pin>,
}

impl Model for Pinned {
    ghost use Rattle.std.specs.Coded.{codes};
    ghost use Rattle.std.specs.Prelude.{map, vec_capacity, ◌≤◌};
    ghost use Rattle.qc_arena.specs.Codes.{tree_code};
    ghost use Rattle.qc_arena.specs.Map.{images_code};
    ghost use Rattle.pinned_view.specs.Pins.{ArePins, version_in};
    ghost use Rattle.pinned_view.specs.Versions.{Versions};
    ghost use Rattle.pinned_view.specs.declared.pins.TheConstants.{MAX_PINS};

    ghost Value = { Versions };

    ghost coded = { Prim.hlevel (codes, tree_code, images_code) };

    ghost view = { λ p. record {
      now = p.warehouse;
      pins = map version_in p.pins.items;
      stored
          = p.kept.items;
    } };

    ghost invariant = { λ p. ArePins p.warehouse p.kept.items p.pins.items
        × (MAX_PINS ≤ vec_capacity p.pins) };
}

impl Pinned {
    /// A warehouse with no version. Drops the before-images of the last change.
    pub fn new(alloc: Global, warehouse: Warehouse) -> Result<Pinned, Memory>
        ensures { IfOk result (λ p. p ≡ record {
          now = record warehouse { images = finmap.empty };
          pins = [];
          stored = [];
        }) }
    {
        let Ok(pins) = Vec::with_capacity(alloc, MAX_PINS) else {
            warehouse.discard();
            return Err(AllocError);
        };
        let mut warehouse = warehouse;
        warehouse.drop_images();
        Ok(Pinned {
            warehouse,
            kept: Vec::new(alloc),
            pins,
        })
    }

    /// The present warehouse.
    pub fn now(&self) -> &Warehouse
        ensures value { result.now ≡ self.now.now }
        ensures valid { AreContents self.now.now }
        ensures versions { AreVersions self.now }
    {
        self.warehouse.recall_invariant();
        &self.warehouse
    }

    /// The number of pinned versions.
    pub fn count(&self) -> usize
        ensures { result ≡ length self.now.pins }
    {
        self.pins.len()
    }

    /// The warehouse alone. Drops the versions.
    pub fn finish(self) -> Warehouse
        ensures { result ≡ self.now }
    {
        let Pinned {
            warehouse,
            kept,
            pins,
        } = self;
        drop(kept);
        drop(pins);
        warehouse
    }

    /// Drops all. A crate that calls this needn't prove again how each part is dropped.
    pub fn discard(self) {
        self.finish().discard();
    }

    /// The tree of a version, and its counts. None if no version has the name. Takes no memory.
    pub fn view(&self, name: &str) -> Option<PinnedView<'_>>
        ensures none { IfNone result (version_of self.now.pins name.now ≡ None) }
        ensures some { IfSome result (λ view. (version : Version)
            × (version_of self.now.pins name.now ≡ Some version)
            × IsViewOf self.now.now.state version view) }
        ensures lists { IfSome result (λ view. AreLast view.lists self.now.stored) }
    {
        let pin = pin_of(&self.pins, name)?;
        let over = images_since(&self.kept, pin.from);
        Some(PinnedView::over(self.warehouse.tree(), over, pin.root, pin.stats))
    }

    /// Pins the present rows under a name. Takes no memory.
    pub fn pin(&mut self, name: &str) -> Result<(), PinRefused>
        requires { length name.now ≤ 32 }
        ensures refused { result ≡ pin_refusal self.old.pins name.now }
        ensures ok { OnOk result
            (self.new ≡ record self.old {
              pins
                  = self.old.pins ++ version_now name.now self.old.now ∷ [];
            }) }
        ensures err { OnErr result (self.new ≡ self.old) }
    {
        if pin_of(&self.pins, name).is_some() {
            return Err(PinRefused::NameTaken);
        }
        if self.pins.len() >= MAX_PINS {
            return Err(PinRefused::AllPinned);
        }
        let pin = Pin::of(&self.warehouse, name, self.kept.len());
        self.pins.push(pin).unwrap();
        Ok(())
    }

    /// Drops a version, and the before-images that only it needs. Takes no memory.
    pub fn unpin(&mut self, name: &str) -> Result<(), NotPinned>
        ensures found { OnOk result (IsSome (version_of self.old.pins name.now)) }
        ensures ok { OnOk result (self.new ≡ record self.old {
          pins = without self.old.pins name.now;
          stored = self.new.stored;
        }) }
        ensures stored { StoresNoMore self.old.stored self.new.stored }
        ensures missing { OnErr result (version_of self.old.pins name.now ≡ None) }
        ensures err { OnErr result (self.new ≡ self.old) }
    {
        if pin_of(&self.pins, name).is_none() {
            return Err(NotPinned);
        }
        drop_named(&mut self.pins, name);
        let first = oldest(&self.pins, self.kept.len());
        drop_oldest(&mut self.kept, first);
        shift_places(&mut self.pins, first);
        Ok(())
    }

    /// Loads a base file, as `Warehouse::load` does. No version changes. If one is pinned, lists of
    /// before-images between which no version reads are merged first, and the place for one more
    /// is reserved. If that runs out of memory, the file is refused.
    pub fn load<L: Ledger>(
        &mut self,
        bytes: &[u8],
        steps: &mut Steps<L>,
    ) -> Result<Applied, Refused>
        requires { length bytes.now ≤ MAX_FILE }
        ensures gives { Gives refusal_in (applied_in self.new.now.state) result
            (batches.result self.old.now.state batches.Load bytes.now) }
        ensures steps { OnOk result
            (steps.new ≤ steps.old + cost_of_load self.new.now.state) }
        ensures valid { AreContents self.new.now }
        ensures pins { self.new.pins ≡ self.old.pins }
        ensures lists { OnOk result (HasFewLists self.new) }
        ensures err { OnErr result (ShowsSame self.old self.new) }
        ensures none { OnErr result (StoresNoMore self.old.stored self.new.stored) }
    {
        match settle(&mut self.kept, &mut self.pins) {
            Ok(()) => {}
            Err(_) => {
                self.warehouse.recall_invariant();
                return Err(Refused::Memory);
            }
        }
        match self.warehouse.load(bytes, steps) {
            Ok(applied) => {
                keep_images(&mut self.kept, &self.pins, &mut self.warehouse);
                Ok(applied)
            }
            Err(refused) => Err(refused),
        }
    }

    /// Applies a batch, as `Warehouse::apply` does. No version changes. If one is pinned, lists of
    /// before-images between which no version reads are merged first, and the place for one more
    /// is reserved. If that runs out of memory, the batch is refused.
    pub fn apply<L: Ledger>(
        &mut self,
        bytes: &[u8],
        steps: &mut Steps<L>,
    ) -> Result<Applied, Refused>
        requires { length bytes.now ≤ MAX_FILE }
        ensures gives { Gives refusal_in (applied_in self.new.now.state) result
            (batches.result self.old.now.state batches.Apply bytes.now) }
        ensures numbers { OnOk result (LeavesNumbers self.old.now bytes.now self.new.now) }
        ensures apart { OnOk result (LeavesOtherRecords self.old.now bytes.now self.new.now) }
        ensures steps { OnOk result
            (IsWithinCost self.old.now.state bytes.now steps.old steps.new) }
        ensures stored { OnOk result (StoresNoOtherNodes self.old bytes.now self.new) }
        ensures unread { IsErr (batch_in self.old.now.state.schema bytes.now)
            → steps.new ≡ steps.old }
        ensures valid { AreContents self.new.now }
        ensures pins { self.new.pins ≡ self.old.pins }
        ensures lists { OnOk result (HasFewLists self.new) }
        ensures err { OnErr result (ShowsSame self.old self.new) }
        ensures none { OnErr result (StoresNoMore self.old.stored self.new.stored) }
    {
        match settle(&mut self.kept, &mut self.pins) {
            Ok(()) => {}
            Err(_) => {
                self.warehouse.recall_invariant();
                return Err(Refused::Memory);
            }
        }
        match self.warehouse.apply(bytes, steps) {
            Ok(applied) => {
                keep_images(&mut self.kept, &self.pins, &mut self.warehouse);
                Ok(applied)
            }
            Err(refused) => Err(refused),
        }
    }

    /// A dry run of a batch, as `Warehouse::attempt` is: answers what `apply` would answer, and
    /// leaves everything as it was.
    pub fn attempt<L: Ledger>(
        &mut self,
        bytes: &[u8],
        steps: &mut Steps<L>,
    ) -> Result<Applied, Refused>
        requires { length bytes.now ≤ MAX_FILE }
        ensures gives { (then : State)
            × Gives refusal_in (applied_in then) result
            (batches.result self.old.now.state batches.Apply bytes.now) }
        ensures steps { OnOk result
            (IsWithinCost self.old.now.state bytes.now steps.old steps.new) }
        ensures unread { IsErr (batch_in self.old.now.state.schema bytes.now)
            → steps.new ≡ steps.old }
        ensures same { self.new ≡ self.old }
    {
        match reserve_one(&mut self.kept, &self.pins) {
            Ok(()) => {}
            Err(_) => return Err(Refused::Memory),
        }
        self.warehouse.attempt(bytes, steps)
    }

    /// Adds a dimension, as `Warehouse::widen` does, if no version is pinned. Pinned is the answer
    /// exactly if one is.
    pub fn widen<L: Ledger>(
        &mut self,
        name: &str,
        value: &str,
        steps: &mut Steps<L>,
    ) -> Result<Applied, PinnedWiden>
        requires name { is_new_name self.old.now.state.schema name.now ≡ true }
        requires value { length value.now ≤ MAX_TEXT }
        ensures pinned { (result ≡ Err PinnedWiden.Pinned) ↔ (0 < length self.old.pins) }
        ensures still { result ≡ Err PinnedWiden.Pinned → steps.new ≡ steps.old }
        ensures gives { length self.old.pins ≡ 0 →
            Gives widen_refusal_in (applied_in self.new.now.state) result
            (widen_result self.old.now.state name.now value.now) }
        ensures records { OnOk result
            (KeepsWidened (length self.old.now.state.schema.dims) self.old.now.tree
            self.new.now.tree) }
        ensures steps { OnOk result
            (steps.new ≤ steps.old + cost_of_widening self.old.now.state) }
        ensures valid { AreContents self.new.now }
        ensures pins { self.new.pins ≡ self.old.pins }
        ensures err { OnErr result (self.new ≡ self.old) }
    {
        if !self.pins.is_empty() {
            self.warehouse.recall_invariant();
            return Err(PinnedWiden::Pinned);
        }
        match self.warehouse.widen(name, value, steps) {
            Ok(applied) => Ok(applied),
            Err(refused) => Err(widen_refused(refused)),
        }
    }
}

// The refusal if no version is pinned.
fn widen_refused(refused: WidenRefused) -> PinnedWiden
    ensures same { widen_refusal_in result ≡ widening.widen_refusal_in refused }
    ensures other { result ≢ PinnedWiden.Pinned }
{
    match refused {
        WidenRefused::DimsFull => PinnedWiden::DimsFull,
        WidenRefused::NodesFull => PinnedWiden::NodesFull,
        WidenRefused::Memory => PinnedWiden::Memory,
    }
}
