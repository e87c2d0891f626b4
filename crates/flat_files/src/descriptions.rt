//! The table of the 2,048 open descriptions.

ghost use Rattle.std.specs.Prelude.{◌≡◌, length};

use crate::description::Description;
use crate::places::free_places;
use std::alloc::{AllocError, Global};

/// The description of each number, or None where it is free.
#[derive(Drop)]
pub struct Descriptions {
    pub(crate) items: Vec<Option<Description>>,
    ghost full: { length items.items ≡ 2048 },
}

impl Descriptions {
    ghost use Rattle.std.specs.Prelude.{◌≡◌, ◌<◌, IfOk, IfSome, option_map};
    ghost use Rattle.unix_model.specs.Tables.{at, with_at, nothing};
    ghost use Rattle.flat_files.specs.InodeView.{description_of};
    ghost use Rattle.flat_files.specs.DescriptionsView.{descriptions_of};

    /// Descriptions that are all free.
    #[tactic(auto, using(crate::proofs::SlotLaws::slots), unfolding(crate::specs::DescriptionsView::descriptions_of))]
    pub fn new(alloc: Global) -> Result<Descriptions, AllocError>
        ensures { IfOk result (λ descriptions. descriptions_of descriptions ≡ nothing) }
    {
        Ok(Descriptions {
            items: free_places(alloc, 2048)?,
        })
    }

    /// The description at a number.
    #[tactic(auto, unfolding(crate::specs::DescriptionsView::descriptions_of, unix_model::specs::Tables::at))]
    pub fn get(&self, number: u16) -> Option<Description>
        ensures value { option_map description_of result ≡ at (descriptions_of self.now) number }
        ensures inside { IfSome result (λ _. number < 2048) }
    {
        if number < 2048 {
            self.items[number as usize]
        } else {
            None
        }
    }

    /// Puts a description at a number, or frees it.
    #[tactic(auto, using(crate::proofs::SlotLaws::slots), unfolding(crate::specs::DescriptionsView::descriptions_of))]
    pub fn set(&mut self, number: u16, description: Option<Description>)
        requires { number < 2048 }
        ensures { descriptions_of self.new ≡ with_at (descriptions_of self.old) number (option_map description_of description) }
    {
        self.items[number as usize] = description;
    }
}
