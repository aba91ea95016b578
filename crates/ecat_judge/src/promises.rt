//! That what is missing is among what fits, and what one name alone says.

ghost use Rattle.std.specs.Prelude.{◌≡◌, ◌⊎◌, ◌-◌, ◌*◌, ◌<◌, ℕ, Bool, true, false, List, [], ◌∷◌, length};
ghost use Rattle.std.specs.Prelude.{filter};
ghost use Rattle.std.specs.List.{count_by};
ghost use Rattle.ec_esc.specs.State.{ControllerState};
ghost use Rattle.ec_map.specs.Item.{ItemRecord};
ghost use Rattle.ec_map.specs.Share.{expected_of};
ghost use Rattle.ecat_judge.specs.declared.share.Share.{Share};
ghost use Rattle.ecat_judge.specs.declared.share.Missing.{Missing};
ghost use Rattle.ecat_judge.specs.declared.evidence.Evidence.{Evidence};
ghost use Rattle.ecat_judge.specs.Share.{lacking};
ghost use Rattle.ecat_judge.specs.declared.candidates.Candidates.{Candidates};
ghost use Rattle.ecat_judge.specs.Answer.{IsTried, any_two_fit, is_told, named, whole_of};
ghost use Rattle.ecat_judge.specs.Candidates.{AreCandidates};
ghost use Rattle.ecat_judge.specs.Evidence.{fits};
ghost use Rattle.ecat_judge.specs.Without.{AreShares, WentWithout, rest};

/// Where a counter moved as far as the slaves of a line give without what is missing, it is short of the one
/// that the whole line gives by just what lacks there.
pub fn missing_lacks()
    ensures { (line : List ControllerState) (item : ItemRecord) (missing : Missing) (shares : List Share)
        → 3 * length line < 65536 → AreShares line item shares
        → lacking missing shares ≡ expected_of line item - rest missing shares }
{}

/// What is missing fits to what trips tell that passed the line without it.
pub fn missing_fits()
    ensures { (line : List ControllerState) (items : ℕ → ItemRecord) (missing : Missing) (e : Evidence)
        → WentWithout line items missing e → fits missing e ≡ true }
{}

/// Where one name is told alone, and not that more may be missing, nothing else that is tried fits: no
/// slave, no run of neighbours, no half of a slave but one of that slave itself, and no two slaves that are
/// no neighbours (`only`). It is one that is told (`counted`). So if what is missing is among all that is
/// tried, it is what is told, or a half of it (`is`).
pub fn one_name_alone()
    ensures counted { (e : Evidence) (c : Candidates) (name : Missing)
        → filter (is_told e) (named c) ≡ name ∷ [] → count_by (is_told e) (named c) ≡ 1 }
    ensures only { (e : Evidence) (c : Candidates) (count : ℕ) (two : Bool) (name m : Missing)
        → AreCandidates c count two → count < 65536 → filter (is_told e) (named c) ≡ name ∷ []
        → any_two_fit e count ≡ false → IsTried c count m → fits m e ≡ true
        → (m ≡ name) ⊎ (whole_of m ≡ name) }
    ensures is { (line : List ControllerState) (items : ℕ → ItemRecord) (missing name : Missing)
        (e : Evidence) (c : Candidates) (two : Bool) → WentWithout line items missing e
        → AreCandidates c (length line) two → IsTried c (length line) missing
        → filter (is_told e) (named c) ≡ name ∷ [] → any_two_fit e (length line) ≡ false
        → (missing ≡ name) ⊎ (whole_of missing ≡ name) }
{}
