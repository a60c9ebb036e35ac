//! The law. It is the contract of a function that does nothing.

ghost use Rattle.dap_views.specs.Frames.{FramesAreThoseOfWhere};

/// States that `where` of `mon` has a line of each frame behind those of C, and no other.
pub fn frames_are_those_of_where()
    ensures { FramesAreThoseOfWhere }
{}
