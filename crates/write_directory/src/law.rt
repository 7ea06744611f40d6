//! A law of the order in which siblings stand.

ghost use Rattle.cfb_names.specs.Names.{name_cmp};
ghost use Rattle.std.specs.Cmp.{IsTotalOrder};

/// The order of names is total: turned round where they are, and what is less than a lesser one is less.
pub fn names_have_one_order()
    ensures { IsTotalOrder name_cmp }
{}
