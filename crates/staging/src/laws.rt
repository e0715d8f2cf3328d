//! Laws of what is kept of a document.

ghost use Rattle.std.specs.Prelude.{◌≡◌, ◌++◌, [], ◌∷◌, ℕ, List, Some};
ghost use Rattle.difference.specs.Document.{IsDocument};
ghost use Rattle.difference.specs.Faults.{IsFault};
ghost use Rattle.room_words.specs.Differences.{Changes};
ghost use Rattle.room_words.specs.declared.stage_fault.StageFault.{StageFault};
ghost use Rattle.staging.specs.Documents.{HasFault, Says, document_text, kept, more_kept};

/// What is kept of a document line by line is what is kept of its text, and it is read as the text is.
pub fn kept_documents_are_read()
    ensures first { kept (document_text []) ≡ Some [] }
    ensures more { (lines : List (List ℕ)) (line : List ℕ) → more_kept (kept (document_text lines)) line ≡ kept (document_text (lines ++ line ∷ [])) }
    ensures says { (text : List ℕ) (d : Changes) → Says (kept text) d → IsDocument text d }
    ensures fault { (text : List ℕ) (bad : StageFault) → HasFault (kept text) bad → IsFault text bad }
{}
