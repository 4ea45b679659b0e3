// Lines are taken one after the other.
ghost use Rattle.std.specs.Prelude.{◌≡◌, ◌∷◌, ◌++◌, [], List, Some, IfOk, OnOk, MatchResult, true};
ghost use Rattle.scapconf.specs.Faults.{IsClean, IsFaultOf};
ghost use Rattle.linewords.specs.Words.{Words, words};
ghost use Rattle.scapconf.specs.Lines.{is_text, said};
ghost use Rattle.scapconf.specs.Names.{name_in};
ghost use Rattle.scapconf.specs.Parser.{key_in, has_key, with_key, applied, with_size, with_time, with_cutoff, is_full, HasRoom, Stands, IsNamedClean, IsNamedFault, IsMemoryOr};

use crate::key::Key;
use crate::limits::MOST_RULES;
use crate::line::{is_comment, is_text};
use crate::line_error::LineError;
use crate::name::Name;
use crate::place::Place;
use crate::read::read;
use crate::setting::Setting;
use crate::size::Size;
use crate::time::Time;
use crate::{Memory, Settings, SettingsKind};
use cutclass::{ClassRule, Classes, Cut, Cutoffs, MOST_CLASSES};
use linewords::{count_words, next_word, word};
use overpolicy::Shape;
use std::alloc::Global;

/// The settings so far, and what they were told of.
#[derive(Drop)]
pub(crate) struct Reader {
    settings: Settings,
    seen: [bool; Key::COUNT],
}

fn key_of(name: Name, line: &[u8]) -> Option<Key>
    ensures { result ≡ key_in name (words line.now) }
{
    match name {
        Name::Mode => Some(Key::Mode),
        Name::Policy => Some(Key::Policy),
        Name::Size(which) => Some(Key::Size(which)),
        Name::Time(which) => Some(Key::Time(which)),
        Name::Filter => Some(Key::Filter),
        Name::Cutoff => Place::of(word(line, 1)).map(Key::Cutoff),
        Name::Budget => Some(Key::Budget),
        Name::Class | Name::Rule => None,
    }
}

fn set_size(shape: &mut Shape, which: Size, bytes: u32)
    ensures { shape.new ≡ with_size which bytes shape.old }
{
    match which {
        Size::Chunk => shape.chunk = bytes,
        Size::Overlap => shape.overlap = bytes,
        Size::Reorder => shape.reorder = bytes,
    }
}

fn set_time(shape: &mut Shape, which: Time, nanoseconds: u64)
    ensures { shape.new ≡ with_time which nanoseconds shape.old }
{
    match which {
        Time::Flush => shape.flush = nanoseconds,
        Time::Hole => shape.hole = nanoseconds,
        Time::Idle => shape.idle = nanoseconds,
    }
}

fn set_cutoff(cutoffs: &mut Cutoffs, place: Place, cut: Cut)
    ensures { cutoffs.new ≡ with_cutoff place cut cutoffs.old }
{
    match place {
        Place::Default => cutoffs.default = cut,
        Place::Fore => cutoffs.fore = cut,
        Place::Back => cutoffs.back = cut,
    }
}

fn add_class(classes: &mut Classes, rule: ClassRule) -> Result<(), Memory>
    ensures { OnOk result (classes.new ≡ classes.old ++ rule ∷ []) }
{
    match classes.add(rule) {
        Ok(()) => Ok(()),
        Err(_) => Err(Memory),
    }
}

impl Reader {
    pub(crate) fn new(alloc: Global) -> Result<Reader, Memory>
        ensures { IfOk result (Stands []) }
    {
        let settings = Settings::defaults(alloc)?;
        Ok(Reader {
            settings,
            seen: [false; Key::COUNT],
        })
    }

    pub(crate) fn into_settings(self) -> Settings
        ensures { result ≡ self.settings }
    {
        let Reader { settings, seen: _ } = self;
        settings
    }

    fn has(&self, key: Option<Key>) -> bool
        ensures { result ≡ has_key self.now.seen key }
    {
        match key {
            None => false,
            Some(key) => self.seen[key.index()],
        }
    }

    fn mark(&mut self, key: Option<Key>)
        ensures seen { self.new.seen ≡ with_key self.old.seen key }
        ensures same { self.new.settings ≡ self.old.settings }
    {
        if let Some(key) = key {
            self.seen[key.index()] = true;
        }
    }

    /// Whether as many classes or rules as there may be are there.
    fn is_full(&self, name: Name) -> bool
        ensures { result ≡ is_full name self.now.settings }
    {
        match name {
            Name::Class => self.settings.set.cutoffs.classes.as_slice().len() >= MOST_CLASSES,
            Name::Rule => self.settings.rules.as_slice().len() >= MOST_RULES,
            Name::Mode
            | Name::Policy
            | Name::Size(_)
            | Name::Time(_)
            | Name::Filter
            | Name::Cutoff
            | Name::Budget => false,
        }
    }

    fn apply(&mut self, setting: Setting) -> Result<(), Memory>
        requires { HasRoom setting self.old.settings }
        ensures settings { OnOk result (self.new.settings ≡ applied setting self.old.settings) }
        ensures seen { self.new.seen ≡ self.old.seen }
    {
        match setting {
            Setting::Mode(mode) => self.settings.set.shape.mode = mode,
            Setting::Policy(policy) => self.settings.set.shape.policy = policy,
            Setting::Size(which, bytes) => set_size(&mut self.settings.set.shape, which, bytes),
            Setting::Time(which, nanoseconds) => {
                set_time(&mut self.settings.set.shape, which, nanoseconds)
            }
            Setting::Filter(filter) => self.settings.filter = Some(filter),
            Setting::Cutoff(place, cut) => set_cutoff(&mut self.settings.set.cutoffs, place, cut),
            Setting::Class(rule) => add_class(&mut self.settings.set.cutoffs.classes, rule)?,
            Setting::Budget(marks) => self.settings.set.marks = marks,
            Setting::Rule(rule) => self.settings.rules.push(rule)?,
        }
        Ok(())
    }

    fn take_named(&mut self, alloc: Global, name: Name, line: &[u8]) -> Result<(), LineError>
        requires text { is_text line.now ≡ true }
        requires named { name_in (words line.now) ≡ Some name }
        ensures { (before : List Words) → Stands before self.old → MatchResult result
            (λ _. IsNamedClean before name (words line.now) × Stands (before ++ words line.now ∷ []) self.new)
            (IsMemoryOr (IsNamedFault before name (words line.now))) }
    {
        let key = key_of(name, line);
        if self.has(key) {
            return Err(LineError::Fault(SettingsKind::Repeated));
        }
        if self.is_full(name) {
            return Err(LineError::Fault(SettingsKind::Many));
        }
        if !name.fits(count_words(line)) {
            return Err(LineError::Fault(SettingsKind::Count));
        }
        let setting = read(alloc, name, line)?;
        self.apply(setting)?;
        self.mark(key);
        Ok(())
    }

    /// Takes one more line, or tells its fault.
    pub(crate) fn take(&mut self, alloc: Global, line: &[u8]) -> Result<(), LineError>
        ensures { (before : List Words) → Stands before self.old → MatchResult result
            (λ _. IsClean before line.now × Stands (before ++ said line.now ∷ []) self.new)
            (IsMemoryOr (IsFaultOf before line.now)) }
    {
        if !is_text(line) {
            return Err(LineError::Fault(SettingsKind::Text));
        }
        if is_comment(line) {
            return Ok(());
        }
        match next_word(line) {
            None => Ok(()),
            Some((first, _)) => match Name::of(first) {
                None => Err(LineError::Fault(SettingsKind::Word)),
                Some(name) => self.take_named(alloc, name, line),
            },
        }
    }
}
