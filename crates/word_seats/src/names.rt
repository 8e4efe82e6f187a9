//! Which table seats are of.

use std::marker::Brand;

/// Which table. A call at `Brand` picks it.
pub trait TableName {
    ghost use Rattle.atomic_table.specs.Seated.{TableId};
    ghost use Rattle.word_rules.specs.declared.layout.Layout.{Layout};
    ghost use Rattle.word_rules.specs.declared.size.ForestSize.{ForestSize};

    ghost table: { TableId };

    ghost table_key: { Layout × ForestSize };
}

impl TableName for Brand {
    ghost use Rattle.std.specs.Prelude.{[]};
    ghost use Rattle.word_rules.specs.Deeds.{no_size};
    ghost use Rattle.word_seats.specs.Names.{no_table};

    ghost table = { no_table };

    ghost table_key = { (record { kinds = [] }, no_size) };
}
