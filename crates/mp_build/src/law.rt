ghost use Rattle.mp_build.specs.Laws.{SequentIsInScope, TermIsInScope, SequentHasFewBinders, TermHasFewBinders, TameEntries, TameValues, SchemaIsNarrow, PatternIsNarrow, PlainInstance, PlainFits};

/// The laws of what is built: in which scope it stands, how many binders its subterms have, and that values of
/// goals within the limits ask for no scope that is too wide. It does nothing: its contract is the laws.
pub fn build_laws()
    ensures sequent_scope { SequentIsInScope }
    ensures term_scope { TermIsInScope }
    ensures sequent_binders { SequentHasFewBinders }
    ensures term_binders { TermHasFewBinders }
    ensures entries { TameEntries }
    ensures values { TameValues }
    ensures schema_room { SchemaIsNarrow }
    ensures pattern_room { PatternIsNarrow }
    ensures plain { PlainInstance }
    ensures plain_fits { PlainFits }
{}
