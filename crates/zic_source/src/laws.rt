//! Laws about the definitions that the contract of `read_source` cites. These functions do nothing.

ghost use Rattle.zic_source.specs.Laws.{TextsAreSourceOrFaulty, TextsAreOneSource, NoSourceHasAFault, OneFaultIsFirst, SourcesAreSound};

/// States that texts are a source, or have a first fault.
pub fn texts_are_source_or_faulty()
    ensures { TextsAreSourceOrFaulty }
{}

/// States that texts are at most one source.
pub fn texts_are_one_source()
    ensures { TextsAreOneSource }
{}

/// States that no texts are both a source and faulty.
pub fn no_source_has_a_fault()
    ensures { NoSourceHasAFault }
{}

/// States that texts have at most one first fault.
pub fn one_fault_is_first()
    ensures { OneFaultIsFirst }
{}

/// States that each source is sound.
pub fn sources_are_sound()
    ensures { SourcesAreSound }
{}
