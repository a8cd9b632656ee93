// Worked examples of the definitions, as theorems: the function does nothing, and its clauses are closed facts.
ghost use Rattle.std.specs.Prelude.{[], ◌∷◌, Some, None, codes};
ghost use Rattle.command_words.specs.Asked.{IsAsked, IsUnread, prove, sat, check, rewrite, stress, qbf, fmodel, core};

/// Options stand on either side of the file, with `=` or as a word of their own; zeros may stand in front; behind `--` a file may
/// begin with `-`. Nothing is asked by no command, no file or two, an option of another command or one given twice, a flag with a
/// value or twice, a budget past the limit, a certificate without an atom, a chain without a length or of one constant, a model
/// without a file, without an element or with too many, and what `clap` would answer by help.
pub fn asking()
    ensures file { IsAsked (codes "prove" ∷ codes "f.p" ∷ []) (prove (codes "f.p") None 10000000) }
    ensures root { IsAsked (codes "prove" ∷ codes "--root" ∷ codes "d" ∷ codes "f.p" ∷ []) (prove (codes "f.p") (Some (codes "d")) 10000000) }
    ensures attached { IsAsked (codes "prove" ∷ codes "f.p" ∷ codes "--budget=4" ∷ []) (prove (codes "f.p") None 4) }
    ensures zeros { IsAsked (codes "prove" ∷ codes "f.p" ∷ codes "--budget" ∷ codes "007" ∷ []) (prove (codes "f.p") None 7) }
    ensures dash { IsAsked (codes "prove" ∷ codes "--" ∷ codes "-f" ∷ []) (prove (codes "-f") None 10000000) }
    ensures sat { IsAsked (codes "sat" ∷ codes "x" ∷ []) (sat (codes "x")) }
    ensures alone { IsAsked (codes "check" ∷ codes "c" ∷ []) (check (codes "c") None None) }
    ensures of_problem { IsAsked (codes "check" ∷ codes "--problem" ∷ codes "f.p" ∷ codes "c" ∷ codes "--root=d" ∷ []) (check (codes "c") (Some (codes "f.p")) (Some (codes "d"))) }
    ensures rewritten { IsAsked (codes "check" ∷ codes "c" ∷ codes "--rewrite" ∷ []) (rewrite (codes "c") None None) }
    ensures chain { IsAsked (codes "stress" ∷ codes "300" ∷ []) (stress 300) }
    ensures formula { IsAsked (codes "qbf" ∷ codes "x" ∷ []) (qbf (codes "x")) }
    ensures model { IsAsked (codes "fmodel" ∷ codes "04" ∷ codes "--root=d" ∷ codes "f.p" ∷ []) (fmodel 4 (codes "f.p") (Some (codes "d"))) }
    ensures core { IsAsked (codes "core" ∷ codes "f.p" ∷ []) (core (codes "f.p") None) }
    // Words that ask nothing.
    ensures empty { IsUnread [] }
    ensures help { IsUnread (codes "--help" ∷ []) }
    ensures no_file { IsUnread (codes "prove" ∷ []) }
    ensures two_files { IsUnread (codes "prove" ∷ codes "a" ∷ codes "b" ∷ []) }
    ensures prove_help { IsUnread (codes "prove" ∷ codes "--help" ∷ []) }
    ensures budget { IsUnread (codes "prove" ∷ codes "f.p" ∷ codes "--budget" ∷ codes "1000000000001" ∷ []) }
    ensures two_roots { IsUnread (codes "prove" ∷ codes "f.p" ∷ codes "--root" ∷ codes "a" ∷ codes "--root" ∷ codes "b" ∷ []) }
    ensures no_root { IsUnread (codes "sat" ∷ codes "x" ∷ codes "--root" ∷ codes "d" ∷ []) }
    ensures no_cert { IsUnread (codes "check" ∷ []) }
    ensures two_certs { IsUnread (codes "check" ∷ codes "a" ∷ codes "b" ∷ []) }
    ensures flag_value { IsUnread (codes "check" ∷ codes "c" ∷ codes "--rewrite=true" ∷ []) }
    ensures two_flags { IsUnread (codes "check" ∷ codes "c" ∷ codes "--rewrite" ∷ codes "--rewrite" ∷ []) }
    ensures no_atom { IsUnread (codes "ask" ∷ codes "a" ∷ []) }
    ensures no_length { IsUnread (codes "stress" ∷ []) }
    ensures short_chain { IsUnread (codes "stress" ∷ codes "1" ∷ []) }
    ensures no_model_file { IsUnread (codes "fmodel" ∷ codes "4" ∷ []) }
    ensures no_element { IsUnread (codes "fmodel" ∷ codes "0" ∷ codes "f.p" ∷ []) }
    ensures many_elements { IsUnread (codes "fmodel" ∷ codes "65" ∷ codes "f.p" ∷ []) }
    ensures no_core_file { IsUnread (codes "core" ∷ []) }
{}
