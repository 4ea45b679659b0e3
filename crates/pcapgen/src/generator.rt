ghost use Rattle.std.specs.Prelude.{◌≡◌, ◌+◌, ◌*◌, ◌<◌, ◌≤◌, ◌++◌, ℕ, suc, OnOk, OnErr, length, replicate};
ghost use Rattle.pcapgen.specs.Draws.{drawn_from};
ghost use Rattle.pcapgen.specs.Kept.{StandsFor, behind, next_record, place};
ghost use Rattle.pcapgen.specs.Made.{made_record};

use crate::draws::draw_record;
use crate::flow::{begin_of, reached};
use crate::headers::put_frame;
use crate::limits::{LONGEST_MADE, MOST_RECORDS};
use crate::{Drawn, Memory};
use std::alloc::Global;
use std::marker::Model;

/// Makes the records of a seed, one after the other.
#[derive(Debug, Drop)]
pub struct Generator {
    state: u64,
    number: u32,
    sent: [u32; 128],
    frame: Vec<u8>,
}

impl Model for Generator {
    ghost use Rattle.std.specs.Prelude.{◌≤◌};
    ghost use Rattle.pcapgen.specs.Kept.{Kept, IsBounded};
    ghost use Rattle.pcapgen.specs.declared.limits.TheConstants.{MOST_RECORDS};

    ghost Value = { Kept };

    ghost view = { λ g. record { state = g.state; number = g.number; sent = g.sent } };

    ghost invariant = { λ g. (g.number ≤ MOST_RECORDS) × IsBounded g.number g.sent };
}

/// The place of a record's direction in the table.
fn place_of(drawn: &Drawn) -> usize
    requires flow { drawn.now.flow < 64 }
    requires way { drawn.now.way < 2 }
    ensures place { result ≡ place drawn.now }
    ensures bound { result < 128 }
{
    (2 * drawn.flow + drawn.way) as usize
}

/// No direction was sent yet.
fn nothing_sent() -> [u32; 128]
    ensures { result ≡ replicate 128 0 }
{
    [0; 128]
}

impl Generator {
    /// The generator of a seed, before its first record.
    pub fn new(alloc: Global, seed: u64) -> Generator
        ensures { StandsFor seed 0 result }
    {
        let sent = nothing_sent();
        Generator {
            state: seed,
            number: 0,
            sent,
            frame: Vec::new(alloc),
        }
    }

    /// Appends the next record by what is kept.
    #[tactic(auto, using(crate::proofs::Lengths::record_short))]
    fn put_by_kept(&mut self, out: &mut Vec<u8>) -> Result<(), Memory>
        requires { self.old.number < MOST_RECORDS }
        ensures ok { OnOk result (out.new.items ≡ out.old.items ++ next_record self.old) }
        ensures kept { OnOk result (self.new ≡ behind self.old) }
        ensures full { length self.old.sent ≡ 128 }
        ensures short { OnOk result (length out.new.items ≤ length out.old.items + LONGEST_MADE) }
        ensures err { OnErr result (out.new.items ≡ out.old.items) }
        ensures same { OnErr result (self.new ≡ self.old) }
    {
        let mut state = self.state;
        let drawn = draw_record(&mut state);
        let place = place_of(&drawn);
        let sent = self.sent[place];
        let begin = begin_of(drawn, sent);
        self.frame.clear();
        put_frame(&mut self.frame, &drawn, begin)?;
        let (seconds, fraction) = (self.number / 1000, self.number % 1000 * 1000);
        pcapfile::put_frame(out, seconds, fraction, &self.frame)?;
        self.state = state;
        self.number += 1;
        self.sent[place] = reached(drawn, sent, begin);
        Ok(())
    }

    /// Appends the next record, header and frame.
    pub fn put_next(&mut self, out: &mut Vec<u8>) -> Result<(), Memory>
        requires { self.old.number < MOST_RECORDS }
        ensures ok { OnOk result ((seed i : ℕ) → StandsFor seed i self.old
            → (out.new.items ≡ out.old.items ++ made_record seed i) × StandsFor seed (suc i) self.new) }
        ensures number { OnOk result (self.new.number ≡ self.old.number + 1) }
        ensures short { OnOk result (length out.new.items ≤ length out.old.items + LONGEST_MADE) }
        ensures err { OnErr result (out.new.items ≡ out.old.items) }
        ensures same { OnErr result (self.new ≡ self.old) }
    {
        self.put_by_kept(out)
    }
}
