//! The law of the maps between normal forms.
ghost use Rattle.normal_forms.specs.MapLaws.{MapsAreFiniteSums};

/// A map of the category of normal forms is a finite sum of irreducible paths in letters in play, and for an endomap of an
/// object that isn't marked of its identity, with fractions; and each such sum is exactly one map.
pub fn maps_are_finite_sums()
    ensures maps { MapsAreFiniteSums }
{}
