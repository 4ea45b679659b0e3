use std::marker::Brand;

/// The name of a budget word: what belongs to it says so by its type.
pub trait Named {
    ghost use Rattle.std.specs.Prelude.{ℕ};
    ghost use Rattle.atomic_table.specs.Seated.{TableId};

    ghost table: { TableId };

    ghost limit: { ℕ };

    ghost first: { ℕ };
}

impl Named for Brand {
    ghost use Rattle.prio_budget.specs.WordParts.{no_table};

    ghost table = { no_table };

    ghost limit = { 0 };

    ghost first = { 0 };
}
