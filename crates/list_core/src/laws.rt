//! What the lists of the way of items can be relied on for. These functions do nothing when they are run, and are called
//! for their contracts alone.
ghost use Rattle.list_core.specs.TraceLaws.{BackWalksAreComplete, ForwardWalksAreComplete};

/// The law that no item is left out of a list forward: with an item it has what that lies in, the build that used it, each
/// item that a kept request began for that build, and each that one cut off it.
pub fn forward_lists_are_complete()
    ensures { ForwardWalksAreComplete }
{}

/// The law that no item is left out of a list back: with an item it has what lies in it, the build that it was begun for,
/// each item that this build used, and what it was cut off.
pub fn back_lists_are_complete()
    ensures { BackWalksAreComplete }
{}
