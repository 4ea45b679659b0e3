ghost use Rattle.std.specs.Prelude.{◌≡◌, ◌+◌, ◌*◌, ◌<◌, ◌≤◌, slice_get, Some};
ghost use Rattle.workrun.specs.Circle.{IsOwn, count_of, place_of, round_from};

/// The cores of a worker, which are the numbers below `cores` that are `first` modulo `step`, and the place among them of the
/// one that it looks at first.
#[derive(Drop)]
pub(crate) struct Circle {
    pub(crate) first: u16,
    pub(crate) step: u16,
    pub(crate) cores: u16,
    pub(crate) at: u16,
    pub(crate) ghost begins: { first < step },
    pub(crate) ghost steps: { step ≤ cores },
    pub(crate) ghost few: { cores ≤ 16 },
    pub(crate) ghost here: { at ≤ 16 },
}

impl Circle {
    /// The cores of a worker that looks at the least one first.
    pub(crate) fn new(first: u16, step: u16, cores: u16) -> Circle
        requires begins { first < step }
        requires steps { step ≤ cores }
        requires few { cores ≤ 16 }
        ensures same { (result.first ≡ first) × (result.step ≡ step) × (result.cores ≡ cores) }
        ensures at { result.at ≡ 0 }
    {
        Circle {
            first,
            step,
            cores,
            at: 0,
        }
    }

    /// How many there are.
    #[tactic(auto, using(crate::proofs::CircleLemmas::count_pos, crate::proofs::CircleLemmas::count_few))]
    fn count(&self) -> u16
        ensures is { result ≡ count_of self.now.first self.now.step self.now.cores }
        ensures some { 0 < result }
        ensures few { result ≤ 16 }
    {
        (self.cores - self.first + self.step - 1) / self.step
    }

    /// The core at a place.
    fn core_of(&self, place: u16) -> u16
        requires { place < count_of self.now.first self.now.step self.now.cores }
        ensures is { result ≡ self.now.first + self.now.step * place }
        ensures own { IsOwn self.now.first self.now.step self.now.cores result }
    {
        self.first + self.step * place
    }

    /// The core to look at first, second and so on.
    pub(crate) fn core_at(&self, turn: u16) -> u16
        requires { turn < count_of self.now.first self.now.step self.now.cores }
        ensures order { slice_get (round_from self.now.first self.now.step self.now.cores self.now.at) turn ≡ Some result }
        ensures own { IsOwn self.now.first self.now.step self.now.cores result }
    {
        let count = self.count();
        self.core_of((self.at + turn) % count)
    }

    /// Goes on behind a core, where it is one of these.
    pub(crate) fn go_behind(&mut self, core: u16)
        ensures same { (self.new.first ≡ self.old.first) × (self.new.step ≡ self.old.step) × (self.new.cores ≡ self.old.cores) }
        ensures behind { IsOwn self.old.first self.old.step self.old.cores core → self.new.at ≡ place_of self.old.first self.old.step core + 1 }
    {
        if core < self.cores && core % self.step == self.first {
            self.at = (core - self.first) / self.step + 1;
        }
    }
}
