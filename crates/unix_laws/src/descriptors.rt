//! Descriptors and the descriptions that they name.

ghost use Rattle.unix_laws.specs.DescriptorLaws.{FreeDescription, TwoFreeDescriptions, SentDescriptorsAreOpen};

/// Where a process has a closed descriptor, some description is free.
pub fn free_description_exists()
    ensures { FreeDescription }
{}

/// Where a process has two closed descriptors, two descriptions are free.
pub fn two_free_descriptions_exist()
    ensures { TwoFreeDescriptions }
{}

/// A call that the keeper sends is never refused for its descriptor, nor as one that isn't served.
pub fn sent_descriptors_are_open()
    ensures { SentDescriptorsAreOpen }
{}
