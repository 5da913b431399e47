// Small decks that break rules on units, and small decks that keep them.
ghost use Rattle.fort_syntax.specs.OrderRows.{StatementsOutOfOrder, HeadsAreMissed, EndsAreMissed, BlocksOutOfOrder};
ghost use Rattle.fort_syntax.specs.NameRows.{NamesAreDeclaredTwice, NamesWithoutType, DimensionsAreBad, BlocksOfUnitsDiffer, DimensionsThatAreNames};
ghost use Rattle.fort_syntax.specs.UseRows.{ArraysAreMisused, NamesAreMisused, SubscriptsAreBad, LabelsAreBad, ResultsAreMissed, TypesAreBad, FirstFaults};
ghost use Rattle.fort_syntax.specs.DeckRows.{IncIsRead, RotIsRead, ZeroIsRead};
ghost use Rattle.fort_syntax.specs.IllFormedRows.{IllFormedDecks, IllFormedUnits, IntrinsicNamesAreNoData};

/// A declaration behind an executable statement, and a head inside a unit, are out of order.
pub fn statements_out_of_order()
    ensures { StatementsOutOfOrder }
{}

/// A unit begins with a head.
pub fn heads_are_missed()
    ensures { HeadsAreMissed }
{}

/// A deck ends with an END.
pub fn ends_are_missed()
    ensures { EndsAreMissed }
{}

/// The statements of block IFs nest.
pub fn blocks_out_of_order()
    ensures { BlocksOutOfOrder }
{}

/// No name is declared twice in one respect.
pub fn names_are_declared_twice()
    ensures { NamesAreDeclaredTwice }
{}

/// Each name has a type.
pub fn names_without_type()
    ensures { NamesWithoutType }
{}

/// Dimensions are few, not 0, and not too large together.
pub fn dimensions_are_bad()
    ensures { DimensionsAreBad }
{}

/// Two units agree on a block.
pub fn blocks_of_units_differ()
    ensures { BlocksOfUnitsDiffer }
{}

/// An adjustable dimension is an integer scalar dummy of an array that is a dummy.
pub fn dimensions_that_are_names()
    ensures { DimensionsThatAreNames }
{}

/// Arrays have subscripts but where they are passed on whole.
pub fn arrays_are_misused()
    ensures { ArraysAreMisused }
{}

/// A name is a scalar, an array, a function or a SUBROUTINE.
pub fn names_are_misused()
    ensures { NamesAreMisused }
{}

/// Without 77, subscripts have seven forms.
pub fn subscripts_are_bad()
    ensures { SubscriptsAreBad }
{}

/// A label stands once, and on an executable statement where it is named.
pub fn labels_are_bad()
    ensures { LabelsAreBad }
{}

/// A FUNCTION assigns its value.
pub fn results_are_missed()
    ensures { ResultsAreMissed }
{}

/// Each place has the type that it demands.
pub fn types_are_bad()
    ensures { TypesAreBad }
{}

/// Of several faults the first is told by stage, card and number.
pub fn first_faults()
    ensures { FirstFaults }
{}

/// A deck of one unit with notes, as the unit and the notes in their places.
pub fn inc_is_read()
    ensures { IncIsRead }
{}

/// Two units with declarations in any order, as units with their names, functions and blocks.
pub fn rot_is_read()
    ensures { RotIsRead }
{}

/// A unit with a block IF, a DO and an adjustable array is well formed under 77.
pub fn zero_is_read()
    ensures { ZeroIsRead }
{}

/// A unit that is well formed, and one for each thing that is asked of it that lacks this alone.
pub fn ill_formed_units()
    ensures units { IllFormedUnits }
    ensures intrinsic { IntrinsicNamesAreNoData }
{}

/// A deck that is well formed, and decks that are not, by their blocks, cards and notes.
pub fn ill_formed_decks()
    ensures { IllFormedDecks }
{}
