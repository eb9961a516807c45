//! Laws of tags: which paths they tell apart.

ghost use Rattle.boki_model.specs.TagLaws.{TagsTellPaths, BegunOnce};

/// Call tags tell paths apart, step tags too, and no call tag is a step tag.
pub fn tags_tell_paths()
    ensures { TagsTellPaths }
{}

/// A path has at most one live submission and one live Init, where each is sent as the first of its tag.
pub fn begun_once()
    ensures { BegunOnce }
{}
