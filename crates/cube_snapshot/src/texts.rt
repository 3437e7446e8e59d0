// The texts of the dimensions, read into a dictionary.
ghost use Rattle.std.specs.Int.{w32};
ghost use Rattle.std.specs.Prelude.{All, Err, List, OnOk, [], length, slice_set, ◌++◌, ◌<◌, ◌∷◌, ◌≡◌, ◌≤◌};
ghost use Rattle.cube_defs.specs.Text.{Text};
ghost use Rattle.value_dict.specs.TextLists.{list_at, no_texts};
ghost use Rattle.cube_snapshot.specs.Format.{get_times, repeated};
ghost use Rattle.cube_snapshot.specs.Parts.{text, texts};
ghost use Rattle.cube_snapshot.specs.Readers.{AreAllowed, HasNoTexts, Reads};

use crate::reading::{text_at, u32_at};
use crate::refused::PartRefused;
use cube_defs::MAX_TEXT;
use value_dict::{Dict, Learn};

// Learns a text that is to be the next of its dimension.
fn learn_next(dict: &mut Dict, dim: u8, place: u32, bytes: &[u8]) -> Result<(), PartRefused>
    requires dim { dim < length dict.old.lists }
    requires place { place ≡ length (list_at dict.old dim) }
    requires short { length bytes.now ≤ MAX_TEXT }
    requires allowed { AreAllowed dict.old.max (list_at dict.old dim) }
    ensures ok { OnOk result
        (dict.new ≡ record dict.old {
          lists
              = slice_set dict.old.lists dim (list_at dict.old dim ++ bytes.now ∷ []);
        }) }
    ensures allowed { OnOk result
        (AreAllowed dict.old.max (list_at dict.old dim ++ bytes.now ∷ [])) }
    ensures form { result ≡ Err PartRefused.Form → (more : List Text)
        → AreAllowed dict.old.max (list_at dict.old dim ++ bytes.now ∷ more) → ⊥ }
{
    let Ok(value) = str::from_utf8(bytes) else {
        return Err(PartRefused::Form);
    };
    match dict.learn(dim, value) {
        Ok(code) => {
            if code == place {
                Ok(())
            } else {
                Err(PartRefused::Form)
            }
        }
        Err(Learn::Full) => Err(PartRefused::Form),
        Err(Learn::Memory) => Err(PartRefused::Memory),
    }
}

// So many texts for a dimension that has none, and the bytes after them.
fn learn_texts<'a>(
    dict: &mut Dict,
    dim: u8,
    count: u32,
    bytes: &'a [u8],
) -> Result<&'a [u8], PartRefused>
    requires { HasNoTexts dict.old dim }
    ensures reads { Reads (λ y. AreAllowed dict.old.max y.0)
        (λ rest. (list_at dict.new dim, rest.now)) result (get_times text count bytes.now) }
    ensures lists { OnOk result
        (dict.new ≡ record dict.old {
          lists
              = slice_set dict.old.lists dim (list_at dict.new dim);
        }) }
{
    let mut rest = bytes;
    'texts: for place in 0..count {
        let Some((value, after)) = text_at(rest) else {
            return Err(PartRefused::Form);
        };
        match learn_next(dict, dim, place, value) {
            Ok(()) => {}
            Err(refused) => return Err(refused),
        }
        rest = after;
    }
    Ok(rest)
}

// The texts of a dimension that has none, and the bytes after them.
fn texts_at<'a>(dict: &mut Dict, dim: u8, bytes: &'a [u8]) -> Result<&'a [u8], PartRefused>
    requires { HasNoTexts dict.old dim }
    ensures reads { Reads (λ y. AreAllowed dict.old.max y.0)
        (λ rest. (list_at dict.new dim, rest.now)) result (texts.get bytes.now) }
    ensures lists { OnOk result
        (dict.new ≡ record dict.old {
          lists
              = slice_set dict.old.lists dim (list_at dict.new dim);
        }) }
{
    match u32_at(bytes) {
        Some((count, rest)) => learn_texts(dict, dim, count, rest),
        None => Err(PartRefused::Form),
    }
}

/// The texts of all dimensions, which are all without texts, and the bytes after them.
pub(crate) fn read_dict<'a>(dict: &mut Dict, bytes: &'a [u8]) -> Result<&'a [u8], PartRefused>
    requires { dict.old ≡ no_texts (length dict.old.lists) dict.old.max }
    ensures reads { Reads (λ y. All (AreAllowed dict.old.max) y.0)
        (λ rest. (dict.new.lists, rest.now)) result
        ((repeated texts (length dict.old.lists)).get bytes.now) }
    ensures max { OnOk result (dict.new.max ≡ dict.old.max) }
    ensures dims { OnOk result (length dict.new.lists ≡ length dict.old.lists) }
{
    let mut rest = bytes;
    'dims: for dim in 0..dict.dims() {
        match texts_at(dict, dim, rest) {
            Ok(after) => rest = after,
            Err(refused) => return Err(refused),
        }
    }
    Ok(rest)
}
