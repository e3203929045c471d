//! What the clause of the program says of each status.

ghost use Rattle.std.specs.Prelude.{◌≡◌, ◌⊎◌, ◌<◌, ◌≤◌, Bool, true, List, ℕ, None, Some, length};
ghost use Rattle.dl_io.specs.Outside.{Rose};
ghost use Rattle.dl_io.specs.House.{HouseState};
ghost use Rattle.dl_theory.specs.Lists.{TheoryLists};
ghost use Rattle.dl_replies.specs.Checks.{IsChecked};
ghost use Rattle.ddl.specs.Run.{Answers, AsksAbout};
ghost use Rattle.dl_files.specs.Theories.{limit, IsTheoryFile, IsRefusal};
ghost use Rattle.dl_words.specs.Words.{Form, Gen, form, file_of, IsAlone};
ghost use Rattle.dl_replies.specs.declared.checked.Checked.{Checked};
ghost use Rattle.dl_files.specs.declared.refusal.Refusal.{Refusal};
ghost use Rattle.dl_files.specs.declared.status.Status.{Status};

/// Usage comes only for words of no form. Done comes only where the theory's file loads, and Refused only where it is
/// refused, or is loaded and the certificate is too large.
/// Where no count of faults rose, words of no form, a theory that loads where no certificate is asked about, a theory that is
/// refused, and the calls of a number each have their status, or there was no memory.
pub fn statuses_are_exact()
    ensures usage { (tells : Bool) (old new : HouseState) (words : List (List ℕ)) → Answers tells old new words Status.Usage → form words ≡ None }
    ensures done { (old new : HouseState) (words : List (List ℕ)) (asked : Form) (file bytes : List ℕ) → Answers true old new words Status.Done
        → form words ≡ Some asked → file_of asked ≡ Some file → old.holds file ≡ Some bytes → (T : TheoryLists) × IsTheoryFile bytes T }
    ensures refused { (old new : HouseState) (words : List (List ℕ)) (asked : Form) (file bytes : List ℕ) → Answers true old new words Status.Refused
        → form words ≡ Some asked → IsAlone asked → file_of asked ≡ Some file → old.holds file ≡ Some bytes → (x : Refusal) × IsRefusal bytes x }
    ensures loads { (old new : HouseState) (words : List (List ℕ)) (ends : Status) (asked : Form) (file bytes : List ℕ) (T : TheoryLists)
        → Answers true old new words ends → form words ≡ Some asked → IsAlone asked → file_of asked ≡ Some file → old.holds file ≡ Some bytes → IsTheoryFile bytes T
        → (Rose old.faults new.faults → ⊥) → (ends ≡ Status.Done) ⊎ (ends ≡ Status.Memory) }
    ensures refuses { (old new : HouseState) (words : List (List ℕ)) (ends : Status) (asked : Form) (file bytes : List ℕ) (x : Refusal)
        → Answers true old new words ends → form words ≡ Some asked → file_of asked ≡ Some file → old.holds file ≡ Some bytes → IsRefusal bytes x
        → (Rose old.faults new.faults → ⊥) → (ends ≡ Status.Refused) ⊎ (ends ≡ Status.Memory) }
    ensures generates { (tells : Bool) (old new : HouseState) (words : List (List ℕ)) (ends : Status) (seed size : ℕ)
        → Answers tells old new words ends → form words ≡ Some (Gen seed size)
        → (Rose old.faults new.faults → ⊥) → (ends ≡ Status.Done) ⊎ (ends ≡ Status.Memory) }
    ensures no_form { (tells : Bool) (old new : HouseState) (words : List (List ℕ)) (ends : Status) → Answers tells old new words ends → form words ≡ None
        → (Rose old.faults new.faults → ⊥) → (ends ≡ Status.Usage) ⊎ (ends ≡ Status.Memory) }
{}

/// Where the words ask about a certificate, its theory loads and no count of faults rose: one that is too large is refused, one that
/// is accepted ends with Done and one that is rejected with Rejected, or there was no memory. So Rejected never stands for a
/// certificate that is accepted, nor the other way.
pub fn certificates_are_judged()
    ensures too_large { (old new : HouseState) (words : List (List ℕ)) (ends : Status) (T : TheoryLists) (bytes : List ℕ)
        → Answers true old new words ends → AsksAbout old words T bytes → limit < length bytes
        → (Rose old.faults new.faults → ⊥) → (ends ≡ Status.Refused) ⊎ (ends ≡ Status.Memory) }
    ensures accepts { (old new : HouseState) (words : List (List ℕ)) (ends : Status) (T : TheoryLists) (bytes : List ℕ)
        → Answers true old new words ends → AsksAbout old words T bytes → length bytes ≤ limit → IsChecked T bytes Checked.Accepted
        → (Rose old.faults new.faults → ⊥) → (ends ≡ Status.Done) ⊎ (ends ≡ Status.Memory) }
    ensures rejects { (old new : HouseState) (words : List (List ℕ)) (ends : Status) (T : TheoryLists) (bytes : List ℕ) (line : ℕ)
        → Answers true old new words ends → AsksAbout old words T bytes → length bytes ≤ limit → IsChecked T bytes (Checked.Rejected line)
        → (Rose old.faults new.faults → ⊥) → (ends ≡ Status.Rejected) ⊎ (ends ≡ Status.Memory) }
{}
