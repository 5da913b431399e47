// Places of elements.
ghost use Rattle.fort_laws.specs.Places.{ElementsLieInArrays};

/// An element whose subscripts lie within their dimensions is one of the elements of its array. It
/// does nothing.
pub fn elements_lie_in_arrays()
    ensures { ElementsLieInArrays }
{}
