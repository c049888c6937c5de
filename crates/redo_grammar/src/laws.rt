//! Theorems that relate the grammar to the functions that read. The functions do nothing: each contract is a law.

ghost use Rattle.std.specs.Prelude.{◌≡◌, ◌≢◌, ◌⊎◌, ℕ, List, Result, Ok, Err, IfOk, IfErr};
ghost use Rattle.redo_script.specs.declared.fault.ScriptFault.{ScriptFault};
ghost use Rattle.redo_grammar.specs.Tokens.{AreTokens};
ghost use Rattle.redo_script.specs.Tokens.{Token};
ghost use Rattle.redo_grammar.specs.Places.{StopsAtByte, StopsAtEnd, StopsAt};
ghost use Rattle.redo_script.specs.Reading.{tokens_of};
ghost use Rattle.redo_script.specs.declared.ast.Script.{Script as ScriptTree};
ghost use Rattle.redo_script.specs.Faults.{Gives, no_memory};
ghost use Rattle.redo_script.specs.Marks.{stop_of};
ghost use Rattle.redo_script.specs.Syntax.{Script};
ghost use Rattle.redo_grammar.specs.Grammar.{IsProgram};
ghost use Rattle.redo_script.specs.Parsing.{statements_of};
ghost use Rattle.redo_grammar.specs.Refusals.{FaultStands};
ghost use Rattle.redo_grammar.specs.Texts.{IsRefused, IsScriptOrRefused, IsScript, tree_of};
ghost use Rattle.redo_script.specs.Texts.{script_in};
ghost use Rattle.redo_script.specs.declared.fault.Reason.TheVariants as reasons;

/// Bytes with tokens by the grammar are read as these tokens.
pub fn tokens_are_read()
    ensures { (text : List ℕ) (ts : List Token) → AreTokens text ts → tokens_of text ≡ Ok ts }
{}

/// Bytes that are read as tokens have these tokens by the grammar.
pub fn read_tokens_are_right()
    ensures { (text : List ℕ) (ts : List Token) → tokens_of text ≡ Ok ts → AreTokens text ts }
{}

/// Tokens that are a program by the grammar are read as its tree.
pub fn programs_are_read()
    ensures { (ts : List Token) (script : Script) → IsProgram ts script → statements_of ts ≡ Ok script }
{}

/// Tokens that are read as a tree are a program by the grammar, with this tree.
pub fn read_programs_are_right()
    ensures { (ts : List Token) (script : Script) → statements_of ts ≡ Ok script → IsProgram ts script }
{}

/// A text that is a script by the grammar is read as its tree.
pub fn scripts_are_read()
    ensures { (text : List ℕ) (script : Script) → IsScript text script → script_in text ≡ Ok script }
{}

/// A text that is read as a tree is a script by the grammar, with this tree.
pub fn read_scripts_are_right()
    ensures { (text : List ℕ) (script : Script) → script_in text ≡ Ok script → IsScript text script }
{}

/// A text has at most one tree.
pub fn one_tree()
    ensures { (text : List ℕ) (s t : Script) → IsScript text s → IsScript text t → s ≡ t }
{}

/// A fault of the tokens is at the first byte after which the text can't continue, or at the end of the text.
pub fn tokens_stop_at_their_fault()
    ensures { (text : List ℕ) (fault : ScriptFault) →
        tokens_of text ≡ Err fault → StopsAtByte text fault ⊎ StopsAtEnd text fault }
{}

/// The fault of a text is never `Memory`, which [`parse`](redo_script::parse) alone reports.
pub fn no_text_wants_memory()
    ensures { (text : List ℕ) (fault : ScriptFault) → script_in text ≡ Err fault → fault.why ≢ reasons.Memory }
{}

/// A fault of the commands is at a place of the grammar, and is the one that the table has for it.
pub fn commands_stop_at_their_fault()
    ensures { (ts : List Token) (fault : ScriptFault) → statements_of ts ≡ Err fault → FaultStands ts fault }
{}

/// Tokens with a fault by the table are refused with it. So they have at most one.
pub fn faults_of_the_table_are_answered()
    ensures { (ts : List Token) (fault : ScriptFault) → FaultStands ts fault → statements_of ts ≡ Err fault }
{}

/// A text that has a fault by the tables is refused with it.
pub fn faults_of_texts_are_answered()
    ensures { (text : List ℕ) (fault : ScriptFault) → IsRefused text fault → script_in text ≡ Err fault }
{}

/// A text that is refused has this fault by the tables.
pub fn refused_texts_have_their_fault()
    ensures { (text : List ℕ) (fault : ScriptFault) → script_in text ≡ Err fault → IsRefused text fault }
{}

/// A text is a script by the grammar, or it has a fault by the tables.
pub fn each_text_is_a_script_or_refused()
    ensures { (text : List ℕ) → IsScriptOrRefused text }
{}

/// A script has no fault.
pub fn a_script_has_no_fault()
    ensures { (text : List ℕ) (script : Script) (fault : ScriptFault) →
        IsScript text script → IsRefused text fault → ⊥ }
{}

/// A text has at most one fault.
pub fn a_text_has_one_fault()
    ensures { (text : List ℕ) (fault other : ScriptFault) →
        IsRefused text fault → IsRefused text other → fault ≡ other }
{}

/// What [`parse`](redo_script::parse) answers of a text, by the grammar.
pub fn answers_are_by_the_grammar()
    // What is read is in the grammar, with this tree.
    ensures found { (text : List ℕ) (answer : Result ScriptTree ScriptFault) →
        Gives tree_of answer (script_in text) → IfOk answer (λ tree. IsScript text (tree_of tree)) }

    // What is in the grammar is read as its tree, unless memory runs out.
    ensures only { (text : List ℕ) (answer : Result ScriptTree ScriptFault) (script : Script) →
        Gives tree_of answer (script_in text) → IsScript text script → Gives tree_of answer (Ok script) }

    // What is refused has this fault, at the place where the text first leaves the grammar.
    ensures refused { (text : List ℕ) (answer : Result ScriptTree ScriptFault) →
        Gives tree_of answer (script_in text) →
        IfErr answer (λ fault. fault.why ≢ reasons.Memory → IsRefused text fault) }

    // Out of memory has no line.
    ensures memory { (text : List ℕ) (answer : Result ScriptTree ScriptFault) →
        Gives tree_of answer (script_in text) →
        IfErr answer (λ fault. fault.why ≡ reasons.Memory → fault ≡ no_memory) }
{}

/// Where [`place_of_fault`](redo_script::place_of_fault) shows a fault of the tokens, they stop by the grammar: at the
/// byte that can't be where it is, at the `$` that ends the text, or at the quote that isn't closed.
pub fn tokens_stop_at_their_place()
    ensures { (text : List ℕ) (fault : ScriptFault) →
        tokens_of text ≡ Err fault → StopsAt text fault (stop_of text) }
{}
