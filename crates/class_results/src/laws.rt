//! That parts and merges give the verdicts of one call.

ghost use Rattle.std.specs.Prelude.{◌≡◌, ◌<◌, ℕ, IsTrue, List, length, map, Contains, Some, Option};
ghost use Rattle.class_results.specs.declared.merging.KeptPlace.{KeptPlace};
ghost use Rattle.class_results.specs.declared.parts.ClassPart.{ClassPart};
ghost use Rattle.class_results.specs.OneCall.{Judged, one_call, Placed, placed_from, has_place, judged_in, judged_of, results_of};
ghost use Rattle.class_results.specs.MergedTables.{Path, missing_by, in_no_part};
ghost use Rattle.class_results.specs.OneCall.{AreResultsOf, IsMerged, merged, said_by_parts, AreAllParts};

/// Parts and merges give the verdicts of one call, where what is said of a submission does not depend on the call. The call
/// for a part says of its submissions what one call says of these alone. The submission of a place is in one part. A merge of
/// the results of some parts says of each submission of the list what one call does, if one of these parts has it, else
/// nothing: it lacks the submissions that none of them has. So a merge of all parts says what one call does, of each submission once, in the order of the list. The results
/// of one submission say the same.
pub fn parts_and_merges_are_one_call()
    ensures part { (judge : Path → Judged) (part : ClassPart) (class : List Path)
        → map judged_of (results_of judge part class) ≡ one_call judge (judged_in (Some part) class) }
    ensures once { (p q : ClassPart) (place : ℕ) → p.count ≡ q.count → IsTrue (has_place p place)
        → IsTrue (has_place q place) → p.number ≡ q.number }
    ensures some { (judge : Path → Judged) (parts : List ClassPart) (class : List Path)
        (kept : List KeptPlace) (found : List (Option ℕ)) → AreResultsOf judge parts class kept
        → IsMerged kept (length class) found
        → merged kept found ≡ map (said_by_parts judge parts) (placed_from 0 class) }
    ensures missing { (judge : Path → Judged) (parts : List ClassPart) (class : List Path) (kept : List KeptPlace)
        (found : List (Option ℕ)) → AreResultsOf judge parts class kept → IsMerged kept (length class) found
        → missing_by found class ≡ in_no_part parts class }
    ensures all { (judge : Path → Judged) (count : ℕ) (parts : List ClassPart) (class : List Path)
        (kept : List KeptPlace) (found : List (Option ℕ)) → 0 < count → AreAllParts count parts
        → AreResultsOf judge parts class kept → IsMerged kept (length class) found
        → merged kept found ≡ map Some (one_call judge class) }
    ensures alike { (judge : Path → Judged) (parts : List ClassPart) (class : List Path)
        (kept : List KeptPlace) (one other : KeptPlace) → AreResultsOf judge parts class kept → Contains kept one
        → Contains kept other → one.place ≡ other.place → judged_of one ≡ judged_of other }
{}
