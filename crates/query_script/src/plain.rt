// Fields with nothing but commas between them, read without a copy.
ghost use Rattle.std.specs.Prelude.{◌≡◌, ◌≤◌, ◌++◌, [], true, List, length, Err, IfErr, IfSome, OnOk};
ghost use Rattle.std.specs.List.{list_all};
ghost use Rattle.cube_defs.specs.Text.{Text};
ghost use Rattle.query_script.specs.Commands.{fields_in};
ghost use Rattle.cell_core.specs.Gives.{Gives};
ghost use Rattle.query_script.specs.Faults.{line_fault_in};
ghost use Rattle.query_script.specs.Fields.{field_of, fields_from};
ghost use Rattle.text_lines.specs.Plain.{is_plain_byte, pieces};
ghost use Rattle.query_script.specs.Progress.{asks};

use crate::asked_fields::AskedFields;
use crate::line::LineRefused;
use crate::part::Part;
use crate::record::{Shape, check_count, push_field};
use cell_core::Fields;
use std::alloc::Global;

// Appends what the pieces between commas ask.
fn push_pieces(alloc: Global, part: &Part, so_far: &mut AskedFields) -> Result<(), LineRefused>
    ensures ok { OnOk result ((more : List Text)
        → asks so_far.new more ≡ asks so_far.old (pieces part.now.text.now ++ more)) }
    ensures err { IfErr result (λ e. (more : List Text) → IfSome (line_fault_in e)
        (λ fault. asks so_far.old (pieces part.now.text.now ++ more) ≡ Err fault)) }
{
    let mut left = part.text;
    'pieces: while let Some((piece, behind)) = left.split_once(',') {
        push_field(alloc, &Part { text: piece }, so_far)?;
        left = behind;
    }
    push_field(alloc, &Part { text: left }, so_far)
}

/// Reads the fields of a text without quotes. An empty text has no fields.
pub(crate) fn read_plain(
    alloc: Global,
    shape: Shape,
    dims: u8,
    part: &Part,
) -> Result<Fields, LineRefused>
    requires { list_all is_plain_byte part.now.text.now ≡ true }
    ensures { Gives line_fault_in (λ fields. fields) result
        (fields_from (field_of shape) 1 dims (fields_in part.now.text.now)) }
{
    let mut so_far = AskedFields {
        shape,
        dims,
        fields: Fields::new(alloc),
    };
    if part.text.is_empty() {
        return check_count(so_far);
    }
    push_pieces(alloc, part, &mut so_far)?;
    check_count(so_far)
}
