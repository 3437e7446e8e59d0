// A law of the calls on a dictionary, one after another.
ghost use Rattle.std.specs.Prelude.{◌≡◌};
ghost use Rattle.cube_defs.specs.Text.{Text};
ghost use Rattle.value_dict.specs.TextLists.{TextLists, with_dim, without_last_dim};

/// If a dimension is added and the last one dropped, all is as it was.
pub fn an_added_dimension_is_dropped()
    ensures { (d : TextLists) (text : Text) → without_last_dim (with_dim d text) ≡ d }
{}
