//! A small forest, made step by step, that meets the premises of the laws.

ghost use Rattle.forest.specs.Example.{ExampleHolds, ExampleShows};

/// Two spaces share a subtree and a page, and the first one maps a page and a blank alone.
pub fn example_holds()
    ensures { ExampleHolds }
{}

/// What the laws say of the small forest: a page that one space maps alone, pages taken away, nodes put in and taken
/// out, a root that shares and one that is released, and how many pages are taken.
pub fn example_shows()
    ensures { ExampleShows }
{}
