//! Laws of well-known text.
ghost use Rattle.std.specs.Prelude.{◌≡◌, ◌⊎◌, ℕ, List, Result, Ok, Err};
ghost use Rattle.edr_wkt.specs.declared.geometry.Geometry.{Geometry};
ghost use Rattle.edr_wkt.specs.declared.faults.WktFault.{WktFault};
ghost use Rattle.edr_wkt.specs.declared.faults.WktFault.TheVariants as fault;
ghost use Rattle.edr_wkt.specs.Wkt.{IsWkt};
ghost use Rattle.edr_wkt.specs.Spelling.{spelled};
ghost use Rattle.edr_wkt.specs.Faults.{Applies, IsFaultless, IsGeometry, MatchWkt};
ghost use Rattle.edr_base.specs.FirstThatApplies.{NoneApplies};

/// A text stands for at most one geometry.
pub fn wkt_is_one()
    ensures { (text : List ℕ) (g h : Geometry) → IsWkt text g → IsWkt text h → g ≡ h }
{}

/// No fault applies to a geometry that is faultless.
pub fn faultless_geometries_have_no_fault()
    ensures { (g : Geometry) → IsFaultless g → NoneApplies (Applies g) }
{}

/// A text has one answer, unless memory is wanting.
pub fn wkt_answer_is_one()
    ensures { (text : List ℕ) (r s : Result Geometry WktFault) → MatchWkt r text → MatchWkt s text
        → (r ≡ Err fault.OutOfMemory) ⊎ ((s ≡ Err fault.OutOfMemory) ⊎ (r ≡ s)) }
{}

/// The written form of a geometry stands for it, and reads back as it.
pub fn written_wkt_reads_back()
    ensures stands { (g : Geometry) → IsGeometry g → IsWkt (spelled g) g }
    ensures reads { (g : Geometry) (r : Result Geometry WktFault) → IsGeometry g → MatchWkt r (spelled g)
        → (r ≡ Err fault.OutOfMemory) ⊎ (r ≡ Ok g) }
{}
