use scap_world::{FailCall, MemShelf, Memory};
use std::alloc::Global;

/// What a run finds: the files that are there, how many bytes go at most in one read or write (0: all), and the calls
/// that fail, each as its name, its kind and the how manyth it is.
#[derive(Clone, Copy)]
pub struct World<'a> {
    pub files: &'a [(&'a str, &'a [u8])],
    pub piece: usize,
    pub faults: &'a [(&'a str, FailCall, u32)],
}

impl<'a> World<'a> {
    /// These files, and all calls go as they should.
    pub fn of(files: &'a [(&'a str, &'a [u8])]) -> World<'a> {
        World {
            files,
            piece: 0,
            faults: &[],
        }
    }

    /// The same, where at most so many bytes go in one read or write.
    pub fn by(self, piece: usize) -> World<'a> {
        World { piece, ..self }
    }
}

/// What is wanted of a file behind a run.
#[derive(Clone, Copy)]
pub enum Left<'a> {
    /// There is none of that name.
    Absent,
    /// It holds just these bytes, or that text, or these texts one after the other.
    Bytes(&'a [u8]),
    Text(&'a str),
    Joined(&'a [&'a str]),
    /// It has that part somewhere.
    Part(&'a str),
}

/// A shelf as a run finds it.
pub fn shelf_of(alloc: Global, world: World) -> Result<MemShelf, Memory> {
    let mut shelf = MemShelf::new(alloc);
    for (name, bytes) in world.files {
        shelf.add(name, bytes)?;
    }
    if world.piece > 0 {
        shelf.set_piece(world.piece);
    }
    plan(&mut shelf, world.faults)?;
    Ok(shelf)
}

fn plan(shelf: &mut MemShelf, faults: &[(&str, FailCall, u32)]) -> Result<(), Memory> {
    for (name, call, nth) in faults {
        shelf.fail(name, *call, *nth)?;
    }
    Ok(())
}

/// Whether each of these files is as it is wanted.
pub fn has_left(shelf: &MemShelf, wanted: &[(&str, Left)]) -> bool {
    wanted.iter().all(|(name, left)| is_left(shelf, name, left))
}

/// Whether that file is as it is wanted.
pub fn is_left(shelf: &MemShelf, name: &str, left: &Left) -> bool {
    match shelf.file(name) {
        None => matches!(left, Left::Absent),
        Some(found) => is_wanted(found, left),
    }
}

fn is_wanted(found: &[u8], left: &Left) -> bool {
    match left {
        Left::Absent => false,
        Left::Bytes(bytes) => found == *bytes,
        Left::Text(text) => found == text.as_bytes(),
        Left::Joined(texts) => is_joined(found, texts),
        Left::Part(part) => found
            .windows(part.len().max(1))
            .any(|front| front == part.as_bytes()),
    }
}

fn is_joined(found: &[u8], texts: &[&str]) -> bool {
    let mut rest = found;
    for text in texts {
        match rest.strip_prefix(text.as_bytes()) {
            Some(behind) => rest = behind,
            None => return false,
        }
    }
    rest.is_empty()
}
