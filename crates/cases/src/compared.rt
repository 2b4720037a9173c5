//! The compared cases, in one list.
ghost use Rattle.cases.specs.Compared.{Compared};

/// All compared cases stand: the sources, the sheets, the tables, the look-ups and the readings. The function does nothing else than
/// ask for the proof.
#[tactic(auto, using(crate::proofs::Examples::tables_right, crate::proofs::Courses::all_read))]
pub fn compared_stand()
    ensures { Compared }
{}
