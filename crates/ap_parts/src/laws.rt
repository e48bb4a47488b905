//! Laws of the definitions. They do nothing: their contracts are what they say.
ghost use Rattle.ap_parts.specs.Known.{BuiltAreKnown, BuiltAreParts, BuiltHaveParts, FilesAreFound, FilesNeed, InstancesFit, UnitsAreFound, UnitsNeed};

use ap_store::files_depend;
use ap_unit::slow::slow_units_depend;

/// What `build_parts` makes are the modules of the design, no others, where the kind of each unit is the first of its name. They have all that a
/// `top` needs, and each stands where the `top` looks for it, with the ports that it knows.
pub fn built_are_parts()
    ensures parts { BuiltAreParts }
    ensures has { BuiltHaveParts }
    ensures known { BuiltAreKnown }
{
    slow_units_depend();
    files_depend();
}

/// Modules that have a design's parts, whatever their cards, have the ports that a `top` knows. So an instance that was placed over one
/// module of a name and ports is an instance over any.
pub fn parts_are_found()
    ensures units { UnitsAreFound }
    ensures files { FilesAreFound }
    ensures fit { InstancesFit }
{}

/// By the names of their modules, units of several cycles depend as such units do, and files as files do.
pub fn parts_depend()
    ensures units { UnitsNeed }
    ensures files { FilesNeed }
{}
