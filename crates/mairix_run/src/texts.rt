//! The texts that a run prints at its end.
ghost use Rattle.std.specs.Prelude.{◌≡◌, ⊤, ℕ, List, [], true, map, is_ok, IfOk, OnErr, string_bytes};
ghost use Rattle.mairix_options.specs.CommandLine.{parse};
ghost use Rattle.run_faults.specs.FaultTexts.{text_of_fault};

use run_faults::Fault;
use std::alloc::{AllocError, Global};

/// The texts of faults, and those that a parser has for words that it refuses, help and version included.
pub trait Texts {
    /// This is the parser's text for these words after the program's name.
    ghost is_usage_text: { Self → List (List ℕ) → List ℕ → Type 0 };

    /// Memory can run out while a text is made.
    ghost memory_can_run_out: { Type 0 };

    /// Returns the parser's text for these words. Fails only for lack of memory.
    fn usage_text(&self, alloc: Global, words: &[String]) -> Result<String, AllocError>
        ensures text { IfOk result (λ text.
            is_usage_text self.now (map string_bytes words.now) (string_bytes text)) }
        ensures memory { OnErr result memory_can_run_out };

    /// Returns the text of a fault. Fails only for lack of memory.
    fn fault_text(&self, alloc: Global, fault: Fault) -> Result<String, AllocError>
        ensures text { IfOk result (λ text. string_bytes text ≡ text_of_fault fault) }
        ensures memory { OnErr result memory_can_run_out };
}

/// The texts of mairix's faults and of the parser of its command line.
#[derive(Clone, Copy)]
pub struct ProgramTexts;

impl Texts for ProgramTexts {
    // The parser promises no more of its texts.
    ghost is_usage_text = { λ _ words text. is_ok (parse words) ≡ true → text ≡ [] };

    ghost memory_can_run_out = { ⊤ };

    fn usage_text(&self, alloc: Global, words: &[String]) -> Result<String, AllocError> {
        mairix_options::usage_text(alloc, words)
    }

    fn fault_text(&self, alloc: Global, fault: Fault) -> Result<String, AllocError> {
        run_faults::fault_text(alloc, &fault)
    }
}
