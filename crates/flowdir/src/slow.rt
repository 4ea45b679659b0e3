use crate::Counts;
use crate::pool::Pool;
use overpolicy::Policy;
use std::alloc::Global;
use std::test::Fail;

/// How far before the stream's first byte the places begin.
pub(crate) const ORIGIN: usize = 8;

/// What became of one position.
#[derive(Clone, Copy, Debug, PartialEq, Eq)]
enum Place {
    Empty,
    Held { byte: u8, start: usize },
    Shown(u8),
    Missing,
}

/// What a byte of a segment is, before anything is asked for.
#[derive(Clone, Copy, Debug, PartialEq, Eq)]
enum Class {
    Late,
    Seen,
    Cut,
    Again,
    Fresh,
}

/// A strict direction that is kept and treated position by position, to be compared with. Its places are counted from `ORIGIN`
/// before the stream's first byte, so that none is negative.
#[derive(Drop)]
pub(crate) struct Slow {
    policy: Policy,
    reorder: usize,
    places: Vec<Place>,
    front: usize,
}

impl Slow {
    pub(crate) fn new(alloc: Global, policy: Policy, reorder: usize) -> Result<Slow, Fail> {
        let mut places = Vec::new(alloc);
        for _ in 0..256 {
            places.push(Place::Empty)?;
        }
        Ok(Slow {
            policy,
            reorder,
            places,
            front: ORIGIN,
        })
    }

    pub(crate) fn front(&self) -> usize {
        self.front
    }

    fn place(&self, at: usize) -> Place {
        match self.places.get(at) {
            Some(place) => *place,
            None => Place::Empty,
        }
    }

    fn set(&mut self, at: usize, place: Place) {
        if let Some(old) = self.places.get_mut(at) {
            *old = place;
        }
    }

    fn class(&self, at: usize, cutoff: usize) -> Class {
        if at < ORIGIN {
            return Class::Late;
        }
        match self.place(at) {
            Place::Shown(_) => Class::Seen,
            Place::Missing => Class::Late,
            _ if at >= cutoff => Class::Cut,
            Place::Held { .. } => Class::Again,
            Place::Empty => Class::Fresh,
        }
    }

    fn classes(
        &self,
        alloc: Global,
        start: usize,
        bytes: &[u8],
        cutoff: usize,
    ) -> Result<Vec<Class>, Fail> {
        let mut classes = Vec::new(alloc);
        let mut at = start;
        for _ in bytes {
            classes.push(self.class(at, cutoff))?;
            at = at.saturating_add(1);
        }
        Ok(classes)
    }

    /// A byte comes to its place: a held one is settled by the policy, a fresh one is held where its run was granted.
    fn settle(&mut self, at: usize, start: usize, byte: u8, class: Class, is_granted: bool) {
        let new = Place::Held { byte, start };
        match self.place(at) {
            Place::Held { start: old, .. } if class == Class::Again => {
                if wins(self.policy, old, start) {
                    self.set(at, new);
                }
            }
            _ if class == Class::Fresh && is_granted => self.set(at, new),
            _ => {}
        }
    }

    /// How many places are held.
    fn held(&self) -> usize {
        let mut held: usize = 0;
        for place in &self.places {
            if let Place::Held { .. } = place {
                held = held.saturating_add(1);
            }
        }
        held
    }

    /// Passes the place at the front: it is shown where it is held, else it is missing.
    fn pass_one(&mut self) {
        let place = match self.place(self.front) {
            Place::Held { byte, .. } => Place::Shown(byte),
            _ => Place::Missing,
        };
        self.set(self.front, place);
        self.front = self.front.saturating_add(1);
    }

    fn is_held(&self, at: usize) -> bool {
        match self.place(at) {
            Place::Held { .. } => true,
            _ => false,
        }
    }

    /// Passes what is held at the front, and a hole before it while more is held than may be.
    fn pass(&mut self, limit: usize) {
        let mut is_jumping = false;
        for _ in 0..self.places.len() {
            is_jumping = !self.is_held(self.front) && (is_jumping || self.held() > limit);
            if !is_jumping && !self.is_held(self.front) {
                return;
            }
            self.pass_one();
        }
    }

    /// A segment comes: its bytes are counted, asked for, held, and passed.
    pub(crate) fn arrive(
        &mut self,
        alloc: Global,
        start: usize,
        bytes: &[u8],
        cutoff: usize,
        pool: &mut Pool,
    ) -> Result<Counts, Fail> {
        let classes = self.classes(alloc, start, bytes, cutoff)?;
        let grants = grants(alloc, classes.as_slice(), pool)?;
        let mut at = start;
        for ((byte, class), is_granted) in bytes.iter().zip(&classes).zip(&grants) {
            self.settle(at, start, *byte, *class, *is_granted);
            at = at.saturating_add(1);
        }
        self.pass(self.reorder);
        Ok(count(classes.as_slice(), grants.as_slice()))
    }

    /// All that is held is passed. Gives the stream: a byte shown for each place passed, a dot for a missing one.
    pub(crate) fn end(&mut self, alloc: Global) -> Result<Vec<u8>, Fail> {
        self.pass(0);
        let mut stream = Vec::new(alloc);
        for place in &self.places {
            match *place {
                Place::Shown(byte) => stream.push(byte)?,
                Place::Missing => stream.push(b'.')?,
                _ => {}
            }
        }
        Ok(stream)
    }
}

/// Whether the later segment's byte stands.
fn wins(policy: Policy, old: usize, new: usize) -> bool {
    match policy {
        Policy::First => false,
        Policy::Last => true,
        Policy::Bsd => old > new,
        Policy::Linux => old >= new,
    }
}

/// How many fresh bytes stand in a row from one on.
fn run_len(classes: &[Class], from: usize) -> u32 {
    let mut len: u32 = 0;
    for class in classes.iter().skip(from) {
        if *class != Class::Fresh {
            return len;
        }
        len = len.saturating_add(1);
    }
    len
}

/// Whether each byte is of a run that was granted. Behind the first refused run none is asked for.
fn grants(alloc: Global, classes: &[Class], pool: &mut Pool) -> Result<Vec<bool>, Fail> {
    let mut grants = Vec::new(alloc);
    let mut before = Class::Late;
    let mut is_granted = true;
    for (at, class) in classes.iter().enumerate() {
        if *class == Class::Fresh && before != Class::Fresh && is_granted {
            is_granted = pool.ask(run_len(classes, at)).is_some();
        }
        grants.push(*class == Class::Fresh && is_granted)?;
        before = *class;
    }
    Ok(grants)
}

fn count(classes: &[Class], grants: &[bool]) -> Counts {
    let mut counts = Counts {
        duplicate: 0,
        late: 0,
        cut: 0,
        taken: 0,
        shed: 0,
    };
    for (class, is_granted) in classes.iter().zip(grants) {
        let counted = match class {
            Class::Late => &mut counts.late,
            Class::Seen | Class::Again => &mut counts.duplicate,
            Class::Cut => &mut counts.cut,
            Class::Fresh if *is_granted => &mut counts.taken,
            Class::Fresh => &mut counts.shed,
        };
        *counted = counted.saturating_add(1);
    }
    counts
}
