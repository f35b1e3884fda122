//! Laws of the definitions, carried by functions that do nothing.

ghost use Rattle.turn_passes.specs.Laws.{FillPlacesAreOfPasses, PlacesAreOfPasses};

use turn_cell::Growing;

/// Where all passes are joined, each item behind the first ones stands at a place of one of them.
pub fn places_are_of_passes<T: Growing>()
    ensures history { PlacesAreOfPasses T.Item T.Fill T }
    ensures fills { FillPlacesAreOfPasses T.Item T.Fill T }
{}
