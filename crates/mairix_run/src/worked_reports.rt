//! Rows: lines and statuses that were worked out by hand.
ghost use Rattle.std.specs.Prelude.{◌≡◌, [], ◌∷◌, ◌++◌, codes, map};
ghost use Rattle.mairix_options.specs.declared.command_line.UsageFault.TheVariants.{Help, Parse, TwoFormats};
ghost use Rattle.mairix_options.specs.declared.rcfile.RcFault.TheVariants.{BadLine};
ghost use Rattle.mbox_cutter.specs.declared.event.CutFault.TheVariants.{ArchiveTooLong, NotAnMbox};
ghost use Rattle.run_faults.specs.Faults.{status_of_fault};
ghost use Rattle.run_faults.specs.declared.fault.Fault.TheVariants.{Archive, Device, Memory, OldIndex, Out, Rc, Stale, TooMany, Usage};
ghost use Rattle.mairix_run.specs.Reports.{fault_line, path_line};

/// The definitions give what was worked out by hand.
#[tactic(auto, unfolding(crate::proofs::RowsTasks::counting))]
pub fn lines_and_statuses_are_as_worked_by_hand()
    ensures unopened { path_line (codes "x") ≡ codes "mairix: cannot open x" ++ 10 ∷ [] }
    ensures no_mbox { fault_line (Archive 1 NotAnMbox)
        ≡ codes "mairix: archive 2: not an mbox" ++ 10 ∷ [] }
    ensures bad_line { fault_line (Rc (BadLine 2))
        ≡ codes "mairix: rcfile line 2: not option=value" ++ 10 ∷ [] }
    ensures two_formats { fault_line (Usage TwoFormats)
        ≡ codes "mairix: -r and -x exclude each other" ++ 10 ∷ [] }
    ensures failed_output { fault_line Out ≡ codes "mairix: output failed" ++ 10 ∷ [] }
    ensures no_memory { fault_line Memory ≡ codes "mairix: out of memory" ++ 10 ∷ [] }
    ensures refused { map status_of_fault (Usage Help ∷ Usage Parse ∷ Rc (BadLine 2) ∷ [])
        ≡ 0 ∷ 2 ∷ 2 ∷ [] }
    ensures wrong_index { map status_of_fault (OldIndex ∷ Stale 0 ∷ []) ≡ 3 ∷ 3 ∷ [] }
    ensures failed { map status_of_fault (Archive 1 NotAnMbox ∷ Device ∷ Out ∷ [])
        ≡ 4 ∷ 4 ∷ 4 ∷ [] }
    ensures no_room { map status_of_fault (Archive 1 ArchiveTooLong ∷ Memory ∷ TooMany ∷ [])
        ≡ 5 ∷ 5 ∷ 5 ∷ [] }
{}
