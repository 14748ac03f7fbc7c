// Laws of terms as preorder lists of places.
ghost use Rattle.rewriting.specs.Places.{CountingOffTellsTerms};
ghost use Rattle.rewriting.specs.Places.{ForestOfPlaces};
ghost use Rattle.rewriting.specs.Places.{PlacesOfForest};

// The preorder list of a term's places, read from its end, gives the term back.
pub fn forest_of_places()
    ensures { ForestOfPlaces }
{}

// What a list of places makes has just those places.
pub fn places_of_forest()
    ensures { PlacesOfForest }
{}

// A list of places is that of some terms exactly if it comes out even when each symbol's children are counted off.
pub fn counting_off_tells_terms()
    ensures { CountingOffTellsTerms }
{}
