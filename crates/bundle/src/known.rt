//! The paths of the entries so far.

ghost use Rattle.std.specs.Prelude.{◌≡◌, ◌≤◌, ◌==◌, ◌||◌, length, IfOk, OnOk, Err};
ghost use Rattle.bundle.specs.Paths as model;
ghost use Rattle.bundle.specs.Keys.{IsAllowed, IsNew, IsRemembered, known_of};

use crate::fault::{BundleKind, NotAdded};
use crate::key::Key;
use crate::paths::form_of;
use indexmap::IndexMap;
use std::alloc::{AllocError, Global};

/// How many paths there is room for at first.
const FIRST_ROOM: usize = 16;

/// For each path so far, whether it is that of a directory. What was looked up last is remembered, since most entries stand in
/// the directory of the one before.
#[derive(Drop)]
pub struct Known {
    paths: IndexMap<Key, bool>,
    last: Key,
    is_there: bool,
    ghost room: { 255 ≤ last.bytes.capacity },
    ghost remembered: { IsRemembered paths last is_there },
}

impl Known {
    /// No paths.
    pub fn new(alloc: Global) -> Result<Known, AllocError>
        ensures { IfOk result (λ known. known_of known.paths ≡ model.nothing_known) }
    {
        let last = match Key::with_room(alloc) {
            Ok(last) => last,
            Err(error) => return Err(error),
        };
        match IndexMap::with_capacity(alloc, FIRST_ROOM) {
            Ok(paths) => Ok(Known {
                paths,
                last,
                is_there: false,
            }),
            Err(error) => Err(error),
        }
    }

    /// Whether a file `/init` was given.
    #[tactic(auto, unfolding(crate::specs::Paths::has_init))]
    pub fn has_init(&mut self) -> bool
        ensures { result ≡ model.has_init (known_of self.old.paths) }
    {
        match self.kind_at(b"/init") {
            Some(is_directory) => !is_directory,
            None => false,
        }
    }

    /// Makes the path of a new entry known, where that may have it. It is looked up once, as it is put in.
    #[tactic(auto, unfolding(crate::specs::Paths::allowed))]
    pub fn add(&mut self, alloc: Global, path: &[u8], is_directory: bool) -> Result<(), NotAdded>
        ensures added { OnOk result (known_of self.new.paths ≡ model.with_path (known_of self.old.paths) path.now is_directory) }
        ensures allowed { IsAllowed (model.allowed (known_of self.old.paths) path.now) result }
    {
        let form = match form_of(path) {
            Some(form) => form,
            None => return Err(NotAdded::Refused(BundleKind::BadPath)),
        };
        if form.is_long {
            return Err(NotAdded::Refused(BundleKind::TooLong));
        }
        if !self.has_parent(&path[..form.last_slash]) {
            return Err(NotAdded::Refused(BundleKind::NoParent));
        }
        self.add_new(alloc, path, is_directory)
    }

    // Makes a path known that has the right form, where it wasn't.
    fn add_new(&mut self, alloc: Global, path: &[u8], is_directory: bool) -> Result<(), NotAdded>
        requires { length path.now ≤ 255 }
        ensures added { OnOk result (known_of self.new.paths ≡ model.with_path (known_of self.old.paths) path.now is_directory) }
        ensures new { IsNew (known_of self.old.paths path.now) result }
    {
        match Key::new(alloc, path) {
            Ok(key) => self.insert(key, is_directory),
            Err(_) => Err(self.not_added(path)),
        }
    }

    // Why a path isn't added for which host memory ran out.
    fn not_added(&mut self, path: &[u8]) -> NotAdded
        requires { length path.now ≤ 255 }
        ensures { IsNew (known_of self.old.paths path.now) (Err result) }
    {
        match self.kind_at(path) {
            Some(_) => NotAdded::Refused(BundleKind::Twice),
            None => NotAdded::NoMemory,
        }
    }

    // Makes a path known, where it wasn't.
    fn insert(&mut self, key: Key, is_directory: bool) -> Result<(), NotAdded>
        ensures added { OnOk result (known_of self.new.paths ≡ model.with_path (known_of self.old.paths) key.bytes.items is_directory) }
        ensures new { IsNew (known_of self.old.paths key.bytes.items) result }
    {
        let is_there = self.is_there;
        self.is_there = false;
        match self.paths.insert(key, is_directory) {
            Ok(None) => {}
            Ok(Some(_)) => return Err(NotAdded::Refused(BundleKind::Twice)),
            Err(_) => return Err(NotAdded::NoMemory),
        }
        self.is_there = is_there;
        Ok(())
    }

    // Whether this is the root, empty, or was given as a directory.
    fn has_parent(&mut self, parent: &[u8]) -> bool
        requires { length parent.now ≤ 255 }
        ensures value { result ≡ (length parent.now == 0) || model.has_directory (known_of self.old.paths) parent.now }
        ensures same { self.new.paths ≡ self.old.paths }
    {
        if parent.is_empty() {
            return true;
        }
        if self.is_there && self.last.as_slice() == parent {
            return true;
        }
        self.kind_at(parent).unwrap_or(false)
    }

    // Whether a path was given, and then as that of a directory. It is remembered.
    fn kind_at(&mut self, path: &[u8]) -> Option<bool>
        requires { length path.now ≤ 255 }
        ensures value { result ≡ known_of self.old.paths path.now }
        ensures same { self.new.paths ≡ self.old.paths }
    {
        self.is_there = false;
        self.last.set(path);
        let kind = self.paths.get(&self.last).copied();
        self.is_there = kind.unwrap_or(false);
        kind
    }
}
