ghost use Rattle.std.specs.List.{list_any};
ghost use Rattle.std.specs.Prelude.{◌≡◌, ◌==◌, [], List, ℕ};
ghost use Rattle.std.specs.String.{string_bytes};
ghost use Rattle.scap_world.specs.Plans.{is_next_named, next};

use std::marker::Model;

/// The calls on a file that was opened or created, and which of them fail.
#[derive(Drop)]
pub(crate) struct Calls {
    name: String,
    plans: usize,
    turns: Vec<u64>,
    made: u64,
    faults: u64,
}

impl Model for Calls {
    ghost use Rattle.std.specs.String.{string_bytes};
    ghost use Rattle.scap_world.specs.Plans.{CallsMade};

    ghost Value = { CallsMade };

    ghost view = { λ c. record { name = string_bytes c.name; plans = c.plans; turns = c.turns.items; made = c.made; faults = c.faults } };
}

impl Calls {
    pub fn new(name: String, plans: usize, turns: Vec<u64>) -> Self
        ensures { result ≡ record { name = string_bytes name; plans = plans; turns = turns.items; made = 0; faults = 0 } }
    {
        Calls {
            name,
            plans,
            turns,
            made: 0,
            faults: 0,
        }
    }

    pub fn name(&self) -> &str
        ensures { result.now ≡ self.now.name }
    {
        self.name.as_str()
    }

    pub fn plans(&self) -> usize
        ensures { result ≡ self.now.plans }
    {
        self.plans
    }

    pub fn made(&self) -> u64
        ensures { result ≡ self.now.made }
    {
        self.made
    }

    pub fn faults(&self) -> u64
        ensures { result ≡ self.now.faults }
    {
        self.faults
    }

    /// Counts a call. Whether it fails.
    pub fn call(&mut self) -> bool
        ensures fails { result ≡ is_next_named self.old }
        ensures counted { self.new ≡ next self.old }
    {
        self.made = self.made.saturating_add(1);
        let fails = is_turn(&self.turns, self.made);
        if fails {
            self.faults = self.faults.saturating_add(1);
        }
        fails
    }
}

fn is_turn(turns: &[u64], call: u64) -> bool
    ensures { result ≡ list_any (λ turn. turn == call) turns.now }
{
    turns.iter().any(|turn| *turn == call)
}
