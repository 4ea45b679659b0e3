ghost use Rattle.std.specs.Prelude.{◌≡◌};

use crate::start_run::StartRun;
use std::marker::Model;

/// The starts that the bytes of a part have once a later segment is settled, seen as the list of their runs.
#[derive(Drop)]
pub(crate) struct NewStarts {
    runs: Vec<StartRun>,
}

impl Model for NewStarts {
    ghost use Rattle.std.specs.Prelude.{List};
    ghost use Rattle.reorder.specs.declared.start_run.StartRun.{StartRun};

    ghost Value = { List StartRun };

    ghost view = { λ s. s.runs.items };
}

impl NewStarts {
    pub(crate) fn of(runs: Vec<StartRun>) -> Self
        ensures { result ≡ runs.items }
    {
        NewStarts { runs }
    }

    pub(crate) fn into_vec(self) -> Vec<StartRun>
        ensures { result.items ≡ self }
    {
        self.runs
    }
}
