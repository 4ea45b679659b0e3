ghost use Rattle.std.specs.Prelude.{◌≡◌, ◌++◌, IfOk, nat_eq};
ghost use Rattle.std.specs.List.{starts_with};
ghost use Rattle.streamdefs.specs.Convo.Seen.{Created};
ghost use Rattle.handler.specs.Parts.{condition_words, data_words, is_of_data, new_words};
ghost use Rattle.handler.specs.Seen.{seen_in_view};
ghost use Rattle.handler.specs.Truth.{data_holds, fits, has_port, new_holds};

use crate::{ChunkView, Front, Memory};
use streamkey::{Key, Toward};

/// Which new conversations a rule is for.
#[derive(Clone, Copy, Debug, PartialEq, Eq)]
pub enum NewTest {
    Any,
    /// One of its two ports.
    Port(u16),
}

/// Which chunks a rule is for.
#[derive(Debug, Drop)]
pub enum DataTest {
    Any,
    /// One of the two ports of its conversation.
    Port(u16),
    /// The chunk starts below this position.
    Before(u64),
    /// The chunk starts at this position or behind it.
    From(u64),
    /// Its bytes, those of the kept chunks before them, begin with these.
    Begins(Front),
}

/// Which events a rule is for.
#[derive(Debug, Drop)]
pub enum Condition {
    New(NewTest),
    Data(DataTest),
}

/// Whether one of the two ports of a conversation is this one.
fn has_port(key: &Key, port: u16) -> bool
    ensures { result ≡ has_port key.now port }
{
    key.low.port == port || key.high.port == port
}

/// Whether bytes in two pieces begin with these.
fn begins(first: &[u8], second: &[u8], front: &[u8]) -> bool
    ensures { result ≡ starts_with nat_eq (first.now ++ second.now) front.now }
{
    if front.len() <= first.len() {
        return first.starts_with(front);
    }
    let (head, tail) = front.split_at(first.len());
    head == first && second.starts_with(tail)
}

impl NewTest {
    fn holds(self, key: &Key) -> bool
        ensures { result ≡ new_holds self key.now }
    {
        match self {
            NewTest::Any => true,
            NewTest::Port(port) => has_port(key, port),
        }
    }

    fn words(self) -> usize
        ensures { result ≡ new_words self }
    {
        match self {
            NewTest::Any => 3,
            NewTest::Port(_) => 4,
        }
    }
}

impl DataTest {
    fn holds(&self, view: &ChunkView) -> bool
        ensures { result ≡ data_holds self.now view.now.key.now view.now.start (view.now.kept.now ++ view.now.shown.now) }
    {
        match self {
            DataTest::Any => true,
            DataTest::Port(port) => has_port(view.key, *port),
            DataTest::Before(position) => view.start < *position,
            DataTest::From(position) => view.start >= *position,
            DataTest::Begins(front) => begins(view.kept, view.shown, front.as_slice()),
        }
    }

    fn words(&self) -> usize
        ensures { result ≡ data_words self.now }
    {
        match self {
            DataTest::Any => 3,
            DataTest::Port(_) | DataTest::Before(_) | DataTest::From(_) | DataTest::Begins(_) => 4,
        }
    }

    /// An equal test.
    pub fn copy(&self) -> Result<DataTest, Memory>
        ensures { IfOk result (λ test. test ≡ self.now) }
    {
        match self {
            DataTest::Any => Ok(DataTest::Any),
            DataTest::Port(port) => Ok(DataTest::Port(*port)),
            DataTest::Before(position) => Ok(DataTest::Before(*position)),
            DataTest::From(position) => Ok(DataTest::From(*position)),
            DataTest::Begins(front) => Ok(DataTest::Begins(front.copy()?)),
        }
    }
}

impl Condition {
    /// Whether it fits a conversation that opened.
    pub fn fits_created(&self, key: &Key, toward: Toward) -> bool
        ensures { result ≡ fits self.now (Created key.now toward) }
    {
        let _ = toward;
        match self {
            Condition::New(test) => test.holds(key),
            Condition::Data(_) => false,
        }
    }

    /// Whether it fits a chunk.
    pub fn fits_chunk(&self, view: &ChunkView) -> bool
        ensures { result ≡ fits self.now (seen_in_view view.now) }
    {
        match self {
            Condition::New(_) => false,
            Condition::Data(test) => test.holds(view),
        }
    }

    /// How many words it has, with the two before it.
    pub(crate) fn words(&self) -> usize
        ensures { result ≡ condition_words self.now }
    {
        match self {
            Condition::New(test) => test.words(),
            Condition::Data(test) => test.words(),
        }
    }

    /// Whether it is one of chunks.
    pub(crate) fn is_of_data(&self) -> bool
        ensures { result ≡ is_of_data self.now }
    {
        match self {
            Condition::New(_) => false,
            Condition::Data(_) => true,
        }
    }

    /// An equal condition.
    pub fn copy(&self) -> Result<Condition, Memory>
        ensures { IfOk result (λ condition. condition ≡ self.now) }
    {
        match self {
            Condition::New(test) => Ok(Condition::New(*test)),
            Condition::Data(test) => Ok(Condition::Data(test.copy()?)),
        }
    }
}
