// A law of schemas and their texts.
ghost use Rattle.std.specs.Prelude.{◌≡◌, Ok};
ghost use Rattle.qc_schema.specs.Grammar.{schema_in};
ghost use Rattle.qc_schema.specs.Schema.{IsLayout, Layout};
ghost use Rattle.qc_schema.specs.Spelling.{layout_text};

/// The canonical text of each schema is read as that schema.
pub fn a_schema_is_read_from_its_text()
    ensures { (l : Layout) → IsLayout l → schema_in (layout_text l) ≡ Ok l }
{}
