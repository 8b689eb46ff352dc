//! Scripts that are refused, each with its first fault: the number of the line, and the kind of the fault.
ghost use Rattle.std.specs.Prelude.{◌≡◌, [], ◌∷◌, codes, Ok};
ghost use Rattle.key_names.specs.declared.faults.FaultKind.TheVariants.{UnknownWord, BadHex, BadFork, BadCpus};
ghost use Rattle.key_names.specs.declared.faults.FaultKind.TheVariants.{Unfinished};
ghost use Rattle.key_names.specs.Texts.Spelling.{lined};
ghost use Rattle.key_names.specs.Texts.ScriptGrammar.{script_text};
ghost use Rattle.key_names.specs.Texts.ScriptFaults.{script_of, first_fault};
ghost use Rattle.worked_cases.specs.Runs.{one_cpu};
ghost use Rattle.worked_cases.specs.ShortScripts.{short, fault_at};

/// A script, and the only text that spells it.
#[tactic(auto, using(crate::proofs::ScriptExamples::is_read, crate::proofs::ScriptExamples::its_text))]
pub fn short_script()
    ensures read { script_of (one_cpu (codes "write 616263" ∷ codes "read 16 4" ∷ [])) ≡ Ok short }
    ensures text { script_text short ≡ one_cpu (codes "write 616263" ∷ codes "read 16 4" ∷ []) }
{}

/// An event with too few fields, one with half a byte, and a second fork of the same caller.
#[tactic(auto, using(crate::proofs::ScriptExamples::too_few_fields, crate::proofs::ScriptExamples::half_a_byte, crate::proofs::ScriptExamples::forked_again))]
pub fn faults_of_events()
    ensures too_few_fields { first_fault (one_cpu (codes "read 8" ∷ [])) ≡ fault_at 4 UnknownWord }
    ensures half_a_byte { first_fault (one_cpu (codes "write abc" ∷ [])) ≡ fault_at 4 BadHex }
    ensures forked_again { first_fault (one_cpu (codes "fork 1" ∷ codes "fork 1" ∷ [])) ≡ fault_at 5 BadFork }
{}

/// A text without a line feed, an empty text, and a script without CPUs.
#[tactic(auto, using(crate::proofs::ScriptExamples::no_line_feed, crate::proofs::ScriptExamples::no_bytes, crate::proofs::ScriptExamples::no_cpus))]
pub fn faults_of_heads()
    ensures no_line_feed { first_fault (codes "rngscript 1") ≡ fault_at 1 Unfinished }
    ensures no_bytes { first_fault [] ≡ fault_at 1 Unfinished }
    ensures no_cpus { first_fault (lined (codes "rngscript 1" ∷ codes "cpus 0" ∷ [])) ≡ fault_at 2 BadCpus }
{}
