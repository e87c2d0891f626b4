//! The places of labels.

ghost use Rattle.std.specs.Prelude.{◌≡◌, OnOk};
ghost use Rattle.rv_asm.specs.Layout.{no_labels, with_label};
ghost use Rattle.rv_asm.specs.Answers.{places_of};

use crate::layout::Place;
use indexmap::IndexMap;
use std::alloc::{AllocError, Global};

/// The labels of a source so far, each with its place.
#[derive(Drop)]
pub struct Labels<'a> {
    places: IndexMap<&'a [u8], Place>,
}

impl<'a> Labels<'a> {
    /// No label.
    pub fn new(alloc: Global) -> Labels<'a>
        ensures { places_of result.places ≡ no_labels }
    {
        Labels {
            places: IndexMap::new(alloc),
        }
    }

    /// The place of a label.
    pub fn place(&self, name: &[u8]) -> Option<Place>
        ensures { result ≡ places_of self.now.places name.now }
    {
        self.places.get(name).copied()
    }

    /// The labels with one more.
    pub fn insert(&mut self, name: &'a [u8], place: Place) -> Result<(), AllocError>
        ensures { OnOk result (places_of self.new.places ≡ with_label (places_of self.old.places) name.now place) }
    {
        self.places.insert(name, place)?;
        Ok(())
    }
}
