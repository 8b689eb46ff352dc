//! Laws of the definitions of a transcript's text.
ghost use Rattle.std.specs.Prelude.{◌≡◌, ℕ, List};
ghost use Rattle.key_names.specs.Transcripts.SeenLine.{SeenLine};
ghost use Rattle.key_names.specs.Texts.TranscriptGrammar.{transcript_text, TranscriptFits, UnderOwnNumber, IsTranscriptText, IsFirstFault};

/// A text is the text of at most one transcript.
pub fn one_transcript()
    ensures { (text : List ℕ) (a b : List (List SeenLine))
        → IsTranscriptText text a → IsTranscriptText text b → a ≡ b }
{}

/// A text has at most one first faulty line.
pub fn one_first_fault()
    ensures { (text : List ℕ) (m n : ℕ) → IsFirstFault text m → IsFirstFault text n → m ≡ n }
{}

/// If each line is listed under its own caller's number, the text written for the lines is the text of exactly this
/// transcript. So reading the text gives the same lines.
pub fn written_text()
    ensures { (callers : List (List SeenLine)) → TranscriptFits callers → UnderOwnNumber 0 callers
        → IsTranscriptText (transcript_text callers) callers }
{}
